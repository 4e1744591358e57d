//! Statements (ISO/IEC 9899:1999, 6.8).

use crate::body::Body;
use crate::declarations::{Level, Made, begin_declaration, declare};
use crate::knot::{required, value_of};
use crate::nodes;
use c_declarators::spot_of;
use c_faults::{Spot, Stop, refuse};
use c_forms::{condition, convert, promote, to_int};
use c_names::Checker;
use c_tree::{BlockItem, Declaration, Expr, ForFirst, Statement, StatementKind};
use c_typed::{HeldExpr, HeldStatement, HeldStatements, TypeKind};
use sv_base::faults;

fn statement_spot(s: &Statement) -> Spot {
    Spot {
        place: s.place,
        start: s.start,
    }
}

/// The block of a compound statement (6.8.2) in the scope that is open. `in_switch` says that it is the body of a `switch`, in
/// which labels may stand.
#[cycle(statements)]
pub fn block(
    s: &Statement,
    in_switch: bool,
    body: &mut Body,
    checker: &mut Checker,
) -> Result<HeldStatement, Stop> {
    let StatementKind::Compound(items) = &s.kind else {
        return refuse(faults::MISPLACED, statement_spot(s));
    };
    let before = body.objects.len();
    let mut out = HeldStatements::new(checker.alloc);
    for item in items.as_slice() {
        match item {
            BlockItem::Declaration(d) => declaration(d, &mut out, body, checker)?,
            BlockItem::Statement(s) => labelled(s, in_switch, &mut out, body, checker)?,
        }
    }
    let objects = body.take_objects(checker.alloc, before)?;
    nodes::block(checker.alloc, objects, out)
}

// A statement with the labels that stand before it.
#[cycle(statements)]
fn labelled(
    s: &Statement,
    in_switch: bool,
    out: &mut HeldStatements,
    body: &mut Body,
    checker: &mut Checker,
) -> Result<(), Stop> {
    match &s.kind {
        StatementKind::Case(e, behind) if in_switch => {
            out.push(case_label(e, statement_spot(s), body, checker)?)?;
            labelled(behind.get(), in_switch, out, body, checker)
        }
        StatementKind::Default(behind) if in_switch => {
            out.push(default_label(statement_spot(s), body, checker)?)?;
            labelled(behind.get(), in_switch, out, body, checker)
        }
        _ => {
            let statement = statement(s, body, checker)?;
            out.push(statement)?;
            Ok(())
        }
    }
}

#[cycle(statements)]
fn statement(s: &Statement, body: &mut Body, checker: &mut Checker) -> Result<HeldStatement, Stop> {
    let alloc = checker.alloc;
    let at = statement_spot(s);
    match &s.kind {
        StatementKind::Compound(_) => {
            let scope = checker.open_scope();
            let made = block(s, false, body, checker)?;
            checker.close_scope(scope);
            Ok(made)
        }
        StatementKind::Plain(None) => nodes::nothing(alloc),
        StatementKind::Plain(Some(e)) => nodes::plain(alloc, value_of(e, checker)?),
        StatementKind::If(test, then, other) => {
            let scope = checker.open_scope();
            let test = tested(test, checker)?;
            let then = inside(then.get(), body, checker)?;
            let other = match other {
                Some(other) => inside(other.get(), body, checker)?,
                None => nodes::nothing(alloc)?,
            };
            checker.close_scope(scope);
            nodes::if_else(alloc, test, then, other)
        }
        StatementKind::Switch(e, of) => {
            let scope = checker.open_scope();
            let value = switched(e, body, checker)?;
            let inner = checker.open_scope();
            let made = block(of.get(), true, body, checker)?;
            checker.close_scope(inner);
            body.end_switch();
            checker.close_scope(scope);
            nodes::switch(alloc, value, made)
        }
        StatementKind::Case(_, _) | StatementKind::Default(_) => misplaced_label(at, body),
        StatementKind::While(_, _) | StatementKind::Do(_, _) | StatementKind::For { .. } => {
            let scope = checker.open_scope();
            let made = repeated(s, body, checker)?;
            checker.close_scope(scope);
            Ok(made)
        }
        StatementKind::Break if body.breakable != 0 => nodes::break_out(alloc),
        StatementKind::Continue if body.loops != 0 => nodes::go_on(alloc),
        StatementKind::Break | StatementKind::Continue => refuse(faults::MISPLACED, at),
        StatementKind::Return(e) => returned(e, at, body, checker),
    }
}

// A loop (6.8.5), in a scope of its own.
#[cycle(statements)]
fn repeated(s: &Statement, body: &mut Body, checker: &mut Checker) -> Result<HeldStatement, Stop> {
    let alloc = checker.alloc;
    match &s.kind {
        StatementKind::While(test, of) => {
            let test = tested(test, checker)?;
            let made = looped(of.get(), body, checker)?;
            nodes::while_loop(alloc, test, made)
        }
        StatementKind::Do(of, test) => {
            let made = looped(of.get(), body, checker)?;
            let test = tested(test, checker)?;
            nodes::do_loop(alloc, made, test)
        }
        StatementKind::For {
            first,
            test,
            last,
            body: of,
        } => {
            let before = body.objects.len();
            let mut out = HeldStatements::new(alloc);
            begin_for(first, &mut out, body, checker)?;
            let test = match test {
                Some(e) => Some(tested(e, checker)?),
                None => None,
            };
            let last = match last {
                Some(e) => Some(value_of(e, checker)?),
                None => None,
            };
            let made = looped(of.get(), body, checker)?;
            let objects = body.take_objects(alloc, before)?;
            out.push(nodes::for_loop(alloc, test, last, made)?)?;
            nodes::block(alloc, objects, out)
        }
        _ => refuse(faults::MISPLACED, statement_spot(s)),
    }
}

// The body of a loop.
#[cycle(statements)]
fn looped(s: &Statement, body: &mut Body, checker: &mut Checker) -> Result<HeldStatement, Stop> {
    body.begin_loop();
    let made = inside(s, body, checker)?;
    body.end_loop();
    Ok(made)
}

// A statement inside another one, which is a block of its own (6.8.4, 6.8.5).
#[cycle(statements)]
fn inside(s: &Statement, body: &mut Body, checker: &mut Checker) -> Result<HeldStatement, Stop> {
    let scope = checker.open_scope();
    let made = statement(s, body, checker)?;
    checker.close_scope(scope);
    Ok(made)
}

// What stands first in the head of a `for` (6.8.5.3).
fn begin_for(
    first: &ForFirst,
    out: &mut HeldStatements,
    body: &mut Body,
    checker: &mut Checker,
) -> Result<(), Stop> {
    match first {
        ForFirst::Nothing => Ok(()),
        ForFirst::One(e) => {
            let value = value_of(e, checker)?;
            out.push(nodes::plain(checker.alloc, value)?)?;
            Ok(())
        }
        ForFirst::Declaration(d) => declaration(d, out, body, checker),
    }
}

// A declaration of a block. Where an initialiser is evaluated is a statement.
fn declaration(
    d: &Declaration,
    out: &mut HeldStatements,
    body: &mut Body,
    checker: &mut Checker,
) -> Result<(), Stop> {
    let said = begin_declaration(d, checker)?;
    for part in d.parts.as_slice() {
        let made = declare(&said, d.head.as_slice(), part, Level::Block, checker)?;
        if let Made::Automatic { object, starts } = made {
            body.objects.push(object)?;
            if starts {
                out.push(nodes::start(checker.alloc, object)?)?;
            }
        }
    }
    Ok(())
}

// A controlling expression.
fn tested(e: &Expr, checker: &mut Checker) -> Result<HeldExpr, Stop> {
    let value = value_of(e, checker)?;
    condition(&checker.types, &value, spot_of(e))?;
    Ok(value)
}

// The controlling expression of a `switch`, which begins.
fn switched(e: &Expr, body: &mut Body, checker: &mut Checker) -> Result<HeldExpr, Stop> {
    let value = value_of(e, checker)?;
    match checker.types.table.kind(value.of()) {
        TypeKind::Int(kind) => {
            let kind = promote(kind);
            let value = to_int(&checker.types, value, kind)?;
            body.begin_switch(checker.alloc, kind)?;
            Ok(value)
        }
        _ => refuse(faults::OPERANDS, spot_of(e)),
    }
}

// A label that stands in no `switch`, or not directly in its compound statement.
fn misplaced_label(at: Spot, body: &Body) -> Result<HeldStatement, Stop> {
    if body.switches.is_empty() {
        return refuse(faults::MISPLACED, at);
    }
    refuse(faults::DEEP_CASE, at)
}

fn case_label(
    e: &Expr,
    at: Spot,
    body: &mut Body,
    checker: &mut Checker,
) -> Result<HeldStatement, Stop> {
    let value = required(e, checker)?;
    let Some(switch) = body.switches.last_mut() else {
        return refuse(faults::MISPLACED, at);
    };
    let value = c_values::convert(switch.kind, value);
    if switch.values.contains(&value) {
        return refuse(faults::MISPLACED, at);
    }
    switch.values.insert(value)?;
    nodes::case(checker.alloc, value)
}

fn default_label(at: Spot, body: &mut Body, checker: &Checker) -> Result<HeldStatement, Stop> {
    match body.switches.last_mut() {
        Some(switch) if !switch.has_default => {
            switch.has_default = true;
            nodes::default(checker.alloc)
        }
        _ => refuse(faults::MISPLACED, at),
    }
}

fn returned(
    e: &Option<Expr>,
    at: Spot,
    body: &Body,
    checker: &mut Checker,
) -> Result<HeldStatement, Stop> {
    let is_void = checker.types.table.kind(body.gives) == TypeKind::Void;
    match e {
        Some(e) if !is_void => {
            let value = value_of(e, checker)?;
            let value = convert(&checker.types, value, body.gives, spot_of(e))?;
            nodes::give_back(checker.alloc, Some(value))
        }
        None if is_void => nodes::give_back(checker.alloc, None),
        _ => refuse(faults::MISPLACED, at),
    }
}
