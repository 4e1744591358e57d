//! Statements (ISO/IEC 9899:1999, 6.8).

use crate::branches::{Sides, build, comes_other_first, other_depth, then_depth};
use crate::code::Code;
use crate::conditions::test;
use crate::context::Context;
use crate::initial::{begins_initialised, start};
use crate::loops::run_loop;
use crate::switches::switch;
use crate::values::value;
use c_typed::{TypedExpr, TypedStatement};
use core_ir::{Leaf, Operand, Step, StepList, Value};
use sv_base::FrontFault;

#[cycle(statements)]
pub(crate) fn statement(
    s: &TypedStatement,
    x: Context<'_>,
    c: &mut Code,
) -> Result<(), FrontFault> {
    match s {
        TypedStatement::Block { objects, .. } => block(s, x, c, objects),
        TypedStatement::Start(object) => start(x, c, *object),
        TypedStatement::Plain(e) => {
            value(e, x, c, false)?;
            Ok(())
        }
        TypedStatement::Nothing => Ok(()),
        TypedStatement::If(_, _, _) => choice(s, x, c),
        TypedStatement::Switch(_, _) => switch(s, x, c),
        TypedStatement::Case(_) | TypedStatement::Default => Ok(()),
        TypedStatement::While(_, _) | TypedStatement::Do(_, _) => run_loop(s, x, c),
        TypedStatement::For { .. } => run_loop(s, x, c),
        TypedStatement::Break => c.break_off(),
        TypedStatement::Continue => c.go_on(),
        TypedStatement::Return(e) => give_back(e, x, c),
    }
}

fn give_back(e: &Option<TypedExpr>, x: Context<'_>, c: &mut Code) -> Result<(), FrontFault> {
    match e {
        None => c.step(Step::Return(None)),
        Some(e) => {
            let operand = value(e, x, c, true)?;
            c.step(Step::Return(Some(operand)))
        }
    }
}

#[cycle(statements)]
pub(crate) fn statements(
    items: &[TypedStatement],
    x: Context<'_>,
    c: &mut Code,
) -> Result<(), FrontFault> {
    for s in items {
        statement(s, x, c)?;
    }
    Ok(())
}

// A block: one of the core where it declares an object that lives in none of the registers.
#[cycle(statements)]
fn block(
    s: &TypedStatement,
    x: Context<'_>,
    c: &mut Code,
    objects: &[u32],
) -> Result<(), FrontFault> {
    let TypedStatement::Block { items, .. } = s else {
        return Ok(());
    };
    if !has_object(x, objects) {
        begin(x, c, objects, false)?;
        return statements(items, x, c);
    }
    let around = c.begin_list();
    c.enter(1);
    begin(x, c, objects, false)?;
    statements(items, x, c)?;
    c.leave(1);
    let body = c.end_list(around);
    c.out.push_block(body)?;
    Ok(())
}

/// Whether one of the objects lives in none of the registers.
pub(crate) fn has_object(x: Context<'_>, objects: &[u32]) -> bool {
    for object in objects {
        if x.register(*object).is_none() {
            return true;
        }
    }
    false
}

/// The start of a block: what it declares begins, in order. A named register gets any value, a pointer one that leads nowhere.
pub(crate) fn begin(
    x: Context<'_>,
    c: &mut Code,
    objects: &[u32],
    is_switch: bool,
) -> Result<(), FrontFault> {
    for object in objects {
        match x.register(*object) {
            Some(r) => begin_register(c, r)?,
            None => {
                let initialised = !is_switch && begins_initialised(x, *object)?;
                c.step(Step::Begin {
                    object: x.region(*object),
                    initialised,
                })?;
            }
        }
    }
    Ok(())
}

fn begin_register(c: &mut Code, r: u32) -> Result<(), FrontFault> {
    match c.leaf(r) {
        Leaf::Int(kind) => {
            let pointer = c.put_pointer(Value::Null)?;
            c.set(r, Value::ToInt(kind, pointer))
        }
        Leaf::Pointer => c.set(r, Value::FromInt(Operand::Const(1))),
    }
}

// `if` (6.8.4.1).
#[cycle(statements)]
fn choice(s: &TypedStatement, x: Context<'_>, c: &mut Code) -> Result<(), FrontFault> {
    let TypedStatement::If(e, a, b) = s else {
        return Ok(());
    };
    let condition = test(e, x, c)?;
    let sides = match **b {
        TypedStatement::Nothing => Sides::Then,
        _ => Sides::Two,
    };
    let in_then = then_depth(&condition, sides);
    let in_other = other_depth(&condition, sides);
    let (then, other) = if comes_other_first(&condition) {
        let other = branch(b, x, c, in_other)?;
        (branch(a, x, c, in_then)?, other)
    } else {
        let then = branch(a, x, c, in_then)?;
        (then, branch(b, x, c, in_other)?)
    };
    let steps = build(condition, x.alloc, sides, then, other)?;
    c.append(steps)?;
    Ok(())
}

// A statement in a list of its own, with so many blocks more around it.
#[cycle(statements)]
fn branch(
    s: &TypedStatement,
    x: Context<'_>,
    c: &mut Code,
    blocks: u32,
) -> Result<StepList, FrontFault> {
    let around = c.begin_list();
    c.enter(blocks);
    statement(s, x, c)?;
    c.leave(blocks);
    Ok(c.end_list(around))
}
