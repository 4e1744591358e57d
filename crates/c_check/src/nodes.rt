//! Typed statements that are made of parts.

use c_faults::Stop;
use c_typed::{HeldExpr, HeldStatement, HeldStatements, TypedExpr, TypedStatement};
use std::alloc::Global;

fn held(alloc: Global, statement: TypedStatement) -> Result<HeldStatement, Stop> {
    let made = HeldStatement::new(alloc, statement)?;
    Ok(made)
}

pub fn nothing(alloc: Global) -> Result<HeldStatement, Stop> {
    held(alloc, TypedStatement::Nothing)
}

pub fn plain(alloc: Global, e: HeldExpr) -> Result<HeldStatement, Stop> {
    held(alloc, TypedStatement::Plain(e.into_expr()))
}

pub fn start(alloc: Global, object: u32) -> Result<HeldStatement, Stop> {
    held(alloc, TypedStatement::Start(object))
}

pub fn block(
    alloc: Global,
    objects: Vec<u32>,
    items: HeldStatements,
) -> Result<HeldStatement, Stop> {
    held(
        alloc,
        TypedStatement::Block {
            objects,
            items: items.into_list(),
        },
    )
}

pub fn if_else(
    alloc: Global,
    test: HeldExpr,
    then: HeldStatement,
    other: HeldStatement,
) -> Result<HeldStatement, Stop> {
    held(
        alloc,
        TypedStatement::If(test.into_expr(), then.into_box(), other.into_box()),
    )
}

pub fn switch(
    alloc: Global,
    value: HeldExpr,
    inside: HeldStatement,
) -> Result<HeldStatement, Stop> {
    held(
        alloc,
        TypedStatement::Switch(value.into_expr(), inside.into_box()),
    )
}

pub fn while_loop(
    alloc: Global,
    test: HeldExpr,
    inside: HeldStatement,
) -> Result<HeldStatement, Stop> {
    held(
        alloc,
        TypedStatement::While(test.into_expr(), inside.into_box()),
    )
}

pub fn do_loop(
    alloc: Global,
    inside: HeldStatement,
    test: HeldExpr,
) -> Result<HeldStatement, Stop> {
    held(
        alloc,
        TypedStatement::Do(inside.into_box(), test.into_expr()),
    )
}

pub fn for_loop(
    alloc: Global,
    test: Option<HeldExpr>,
    last: Option<HeldExpr>,
    inside: HeldStatement,
) -> Result<HeldStatement, Stop> {
    held(
        alloc,
        TypedStatement::For {
            test: bare(test),
            last: bare(last),
            body: inside.into_box(),
        },
    )
}

fn bare(e: Option<HeldExpr>) -> Option<TypedExpr> {
    match e {
        Some(e) => Some(e.into_expr()),
        None => None,
    }
}

pub fn case(alloc: Global, value: i128) -> Result<HeldStatement, Stop> {
    held(alloc, TypedStatement::Case(value))
}

pub fn default(alloc: Global) -> Result<HeldStatement, Stop> {
    held(alloc, TypedStatement::Default)
}

pub fn break_out(alloc: Global) -> Result<HeldStatement, Stop> {
    held(alloc, TypedStatement::Break)
}

pub fn go_on(alloc: Global) -> Result<HeldStatement, Stop> {
    held(alloc, TypedStatement::Continue)
}

pub fn give_back(alloc: Global, e: Option<HeldExpr>) -> Result<HeldStatement, Stop> {
    held(alloc, TypedStatement::Return(bare(e)))
}
