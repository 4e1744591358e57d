//! Loops (ISO/IEC 9899:1999, 6.8.5): a block that `break` leaves, in it the loop, and in that a block that `continue` leaves.

use crate::branches::{Sides, build, other_depth, then_depth};
use crate::code::Code;
use crate::conditions::test;
use crate::context::Context;
use crate::statements::statement;
use crate::values::value;
use c_typed::{TypedExpr, TypedStatement};
use core_ir::{Step, StepList};
use sv_base::{FrontFault, NoMemory};

#[cycle(statements)]
pub(crate) fn run_loop(s: &TypedStatement, x: Context<'_>, c: &mut Code) -> Result<(), FrontFault> {
    let before = c.begin_list();
    c.breaks.push(c.depth)?;
    c.enter(1);
    passes(s, x, c)?;
    c.leave(1);
    let _ = c.breaks.pop();
    let body = c.end_list(before);
    c.out.push_block(in_loop(x, body)?)?;
    Ok(())
}

fn in_loop(x: Context<'_>, body: StepList) -> Result<StepList, NoMemory> {
    let mut steps = StepList::new(x.alloc);
    steps.push_loop(body)?;
    Ok(steps)
}

// What the loop does again and again.
#[cycle(statements)]
fn passes(s: &TypedStatement, x: Context<'_>, c: &mut Code) -> Result<(), FrontFault> {
    match s {
        TypedStatement::While(e, body) => tested(body, x, c, e, &None),
        TypedStatement::Do(body, e) => {
            pass(body, x, c, &None)?;
            leave_unless(e, x, c)
        }
        TypedStatement::For { test, last, body } => match test {
            None => pass(body, x, c, last),
            Some(e) => tested(body, x, c, e, last),
        },
        _ => Ok(()),
    }
}

// A pass where the condition holds; where it does not, the loop is left.
#[cycle(statements)]
fn tested(
    body: &TypedStatement,
    x: Context<'_>,
    c: &mut Code,
    e: &TypedExpr,
    last: &Option<TypedExpr>,
) -> Result<(), FrontFault> {
    let condition = test(e, x, c)?;
    let in_then = then_depth(&condition, Sides::Two);
    let around = c.begin_list();
    c.enter(in_then);
    pass(body, x, c, last)?;
    c.leave(in_then);
    let then = c.end_list(around);
    let other = one_exit(x, other_depth(&condition, Sides::Two))?;
    let steps = build(condition, x.alloc, Sides::Two, then, other)?;
    c.append(steps)?;
    Ok(())
}

// The test of a `do`.
fn leave_unless(e: &TypedExpr, x: Context<'_>, c: &mut Code) -> Result<(), FrontFault> {
    let condition = test(e, x, c)?;
    let other = one_exit(x, other_depth(&condition, Sides::Other))?;
    let then = StepList::new(x.alloc);
    let steps = build(condition, x.alloc, Sides::Other, then, other)?;
    c.append(steps)?;
    Ok(())
}

fn one_exit(x: Context<'_>, block: u32) -> Result<StepList, NoMemory> {
    let mut steps = StepList::new(x.alloc);
    steps.push(Step::Exit(block))?;
    Ok(steps)
}

// The body, and the third expression of a `for`.
#[cycle(statements)]
fn pass(
    body: &TypedStatement,
    x: Context<'_>,
    c: &mut Code,
    last: &Option<TypedExpr>,
) -> Result<(), FrontFault> {
    let around = c.begin_list();
    c.continues.push(c.depth)?;
    c.enter(1);
    statement(body, x, c)?;
    c.leave(1);
    let _ = c.continues.pop();
    let steps = c.end_list(around);
    c.out.push_block(steps)?;
    if let Some(last) = last {
        value(last, x, c, false)?;
    }
    Ok(())
}
