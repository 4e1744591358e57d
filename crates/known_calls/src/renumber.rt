//! New numbers for the functions that a program names.

use crate::externals::NewNumbers;
use c_typed::{InitialPart, TypedExpr, TypedFunction, TypedKind, TypedObject, TypedStatement};

/// How functions are numbered anew. `functions` are those that are defined before, `first` is the number of the first external one.
#[derive(Clone, Copy)]
pub(crate) struct Renumbering<'a> {
    pub(crate) functions: u32,
    pub(crate) first: u32,
    pub(crate) externals: &'a [u32],
    pub(crate) redirected: &'a NewNumbers,
    /// The function that has the expressions; none of a static object.
    pub(crate) inside: Option<u32>,
}

impl Renumbering<'_> {
    // The number of a function that is named at an offset.
    fn number(self, start: u32, old: u32) -> u32 {
        if let Some(inside) = self.inside {
            if let Some(number) = self.redirected.get(&(inside, start)) {
                return *number;
            }
        }
        match old.checked_sub(self.functions) {
            None => old,
            Some(external) => match self.externals.get(external as usize) {
                None => old,
                Some(new) => self.first.saturating_add(*new),
            },
        }
    }
}

#[cycle(renumbered)]
fn expression(e: &mut TypedExpr, x: Renumbering<'_>) {
    let start = e.start;
    match &mut e.kind {
        TypedKind::Function(number) => *number = x.number(start, *number),
        TypedKind::Deref(a, _) => expression(a, x),
        TypedKind::Member(a, _) => expression(a, x),
        TypedKind::Read(a) => expression(a, x),
        TypedKind::Decay(a) => expression(a, x),
        TypedKind::AddressOf(a) => expression(a, x),
        TypedKind::Convert(a) => expression(a, x),
        TypedKind::Unary(_, a) => expression(a, x),
        TypedKind::Not(a) => expression(a, x),
        _ => wider(e, x),
    }
}

// What has more than one operand, or none.
#[cycle(renumbered)]
fn wider(e: &mut TypedExpr, x: Renumbering<'_>) {
    match &mut e.kind {
        TypedKind::Binary(_, a, b) => {
            expression(a, x);
            expression(b, x)
        }
        TypedKind::Minus(a, b) => {
            expression(a, x);
            expression(b, x)
        }
        TypedKind::Compare(_, a, b) => {
            expression(a, x);
            expression(b, x)
        }
        TypedKind::Both(a, b) => {
            expression(a, x);
            expression(b, x)
        }
        TypedKind::Either(a, b) => {
            expression(a, x);
            expression(b, x)
        }
        TypedKind::Assign(a, b) => {
            expression(a, x);
            expression(b, x)
        }
        TypedKind::Comma(a, b) => {
            expression(a, x);
            expression(b, x)
        }
        TypedKind::Sum { pointer, index, .. } => {
            expression(pointer, x);
            expression(index, x)
        }
        TypedKind::Update { target, by, .. } => {
            expression(target, x);
            expression(by, x)
        }
        TypedKind::Choose(a, b, c) => {
            expression(a, x);
            expression(b, x);
            expression(c, x)
        }
        TypedKind::Call(f, args) => {
            expression(f, x);
            expressions(args, x)
        }
        _ => {}
    }
}

#[cycle(renumbered)]
fn expressions(list: &mut [TypedExpr], x: Renumbering<'_>) {
    for i in 0..list.len() {
        expression(&mut list[i], x);
    }
}

fn some_expression(e: &mut Option<TypedExpr>, x: Renumbering<'_>) {
    if let Some(e) = e {
        expression(e, x);
    }
}

#[cycle(renumbered_statements)]
fn statement(s: &mut TypedStatement, x: Renumbering<'_>) {
    match s {
        TypedStatement::Block { items, .. } => statements(items, x),
        TypedStatement::Plain(e) => expression(e, x),
        TypedStatement::If(e, a, b) => {
            expression(e, x);
            statement(a, x);
            statement(b, x)
        }
        TypedStatement::Switch(e, a) => {
            expression(e, x);
            statement(a, x)
        }
        TypedStatement::While(e, a) => {
            expression(e, x);
            statement(a, x)
        }
        TypedStatement::Do(a, e) => {
            statement(a, x);
            expression(e, x)
        }
        TypedStatement::For { test, last, body } => {
            some_expression(test, x);
            some_expression(last, x);
            statement(body, x)
        }
        TypedStatement::Return(e) => some_expression(e, x),
        _ => {}
    }
}

#[cycle(renumbered_statements)]
fn statements(list: &mut [TypedStatement], x: Renumbering<'_>) {
    for i in 0..list.len() {
        statement(&mut list[i], x);
    }
}

fn part(p: &mut InitialPart, x: Renumbering<'_>) {
    expression(&mut p.value, x);
}

/// The functions that an object's initialiser names.
pub(crate) fn object(o: &mut TypedObject, x: Renumbering<'_>) {
    if let Some(parts) = &mut o.initial {
        for i in 0..parts.len() {
            if let Some(p) = parts.get_mut(i) {
                part(p, x);
            }
        }
    }
}

fn objects(list: &mut Vec<TypedObject>, x: Renumbering<'_>) {
    for i in 0..list.len() {
        if let Some(o) = list.get_mut(i) {
            object(o, x);
        }
    }
}

fn function(f: &mut TypedFunction, x: Renumbering<'_>) {
    objects(&mut f.objects, x);
    statement(&mut f.code, x);
}

/// The functions that the bodies of functions name.
pub(crate) fn functions(list: &mut Vec<TypedFunction>, x: Renumbering<'_>) {
    for i in 0..list.len() {
        if let Some(f) = list.get_mut(i) {
            let inside = Renumbering {
                inside: u32::try_from(i).ok(),
                ..x
            };
            function(f, inside);
        }
    }
}

/// The functions that static objects name.
pub(crate) fn statics(list: &mut Vec<TypedObject>, x: Renumbering<'_>) {
    objects(list, x);
}
