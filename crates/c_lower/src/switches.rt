//! `switch` (ISO/IEC 9899:1999, 6.8.4.2): tests in the order of the cases, each with an exit to its place. Each place is the end of a
//! block, and the block of a later place stands around that of an earlier one.

use crate::code::Code;
use crate::context::{Context, leaf_of};
use crate::statements::{begin, has_object, statement};
use crate::values::value;
use c_typed::{TypedExpr, TypedStatement};
use c_values::Cmp;
use core_ir::{Cond, Operand, Step, StepList, Value};
use std::alloc::Global;
use sv_base::{FrontFault, NoMemory};

// A label, and its place: places count from 1.
#[derive(Clone, Copy)]
struct Label {
    // None of `default`.
    number: Option<i128>,
    place: u32,
}

fn label_of(s: &TypedStatement) -> Option<Option<i128>> {
    match s {
        TypedStatement::Case(number) => Some(Some(*number)),
        TypedStatement::Default => Some(None),
        _ => None,
    }
}

// The labels in order. Labels in a row have one place.
fn labels_of(alloc: Global, items: &[TypedStatement]) -> Result<Vec<Label>, NoMemory> {
    let mut labels = Vec::new(alloc);
    let mut place = 0u32;
    let mut in_row = false;
    for s in items {
        match label_of(s) {
            None => in_row = false,
            Some(number) => {
                if !in_row {
                    place = place.checked_add(1).ok_or(NoMemory)?;
                }
                in_row = true;
                labels.push(Label { number, place })?;
            }
        }
    }
    Ok(labels)
}

#[cycle(statements)]
pub(crate) fn switch(s: &TypedStatement, x: Context<'_>, c: &mut Code) -> Result<(), FrontFault> {
    let TypedStatement::Switch(e, body) = s else {
        return Ok(());
    };
    let operand = tested_value(e, x, c)?;
    let around = c.begin_list();
    c.breaks.push(c.depth)?;
    c.enter(1);
    scoped(body, x, c, operand)?;
    c.leave(1);
    let _ = c.breaks.pop();
    let steps = c.end_list(around);
    c.out.push_block(steps)?;
    Ok(())
}

// The value that the cases are compared with, in a register.
fn tested_value(e: &TypedExpr, x: Context<'_>, c: &mut Code) -> Result<Operand, FrontFault> {
    match value(e, x, c, true)? {
        Operand::Reg(r) => Ok(Operand::Reg(r)),
        constant => c.put(leaf_of(x.types(), e.of), Value::Copy(constant)),
    }
}

// The block of a switch, whose objects begin before the tests.
#[cycle(statements)]
fn scoped(
    body: &TypedStatement,
    x: Context<'_>,
    c: &mut Code,
    operand: Operand,
) -> Result<(), FrontFault> {
    let TypedStatement::Block { objects, items } = body else {
        return Ok(());
    };
    if !has_object(x, objects) {
        begin(x, c, objects, true)?;
        return cases(items, x, c, operand);
    }
    let around = c.begin_list();
    c.enter(1);
    begin(x, c, objects, true)?;
    cases(items, x, c, operand)?;
    c.leave(1);
    let steps = c.end_list(around);
    c.out.push_block(steps)?;
    Ok(())
}

// The tests, and behind the block of each place the statements that stand there.
#[cycle(statements)]
fn cases(
    items: &[TypedStatement],
    x: Context<'_>,
    c: &mut Code,
    operand: Operand,
) -> Result<(), FrontFault> {
    let labels = labels_of(x.alloc, items)?;
    let places = match labels.last() {
        None => 0,
        Some(label) => label.place,
    };
    let around = c.begin_list();
    c.enter(places);
    tests(c, &labels, operand)?;
    let mut in_row = false;
    for s in items {
        if label_of(s).is_some() {
            if !in_row {
                next_place(c, x.alloc)?;
            }
            in_row = true;
        } else {
            in_row = false;
            statement(s, x, c)?;
        }
    }
    let steps = c.end_list(around);
    c.append(steps)?;
    Ok(())
}

// The steps so far become the block whose end is the next place.
fn next_place(c: &mut Code, alloc: Global) -> Result<(), FrontFault> {
    let before = c.end_list(StepList::new(alloc));
    c.out.push_block(before)?;
    c.leave(1);
    Ok(())
}

// A test for each label, and then `default` or the end.
fn tests(c: &mut Code, labels: &[Label], operand: Operand) -> Result<(), FrontFault> {
    let mut default = None;
    for label in labels {
        match label.number {
            None => default = Some(label.place),
            Some(number) => push_test(c, operand, number, label.place)?,
        }
    }
    match default {
        None => c.break_off(),
        Some(place) => c.step(Step::Exit(place.saturating_sub(1))),
    }
}

fn push_test(c: &mut Code, operand: Operand, number: i128, place: u32) -> Result<(), FrontFault> {
    let around = c.begin_list();
    c.step(Step::Exit(place.saturating_sub(1)))?;
    let then = c.end_list(around);
    let other = c.empty_list();
    let cond = Cond::Ints(Cmp::Eq, operand, Operand::Const(number));
    c.out.push_choice(cond, then, other)?;
    Ok(())
}
