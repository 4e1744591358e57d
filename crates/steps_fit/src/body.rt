ghost use Rattle.std.specs.Prelude.{◌≡◌, IsTrue, Some};
ghost use Rattle.core_ir.specs.Programs.{function_of, program_of};
ghost use Rattle.core_ir.specs.StepsFit.{APointer, IsSize, OfSomeType, PutsPointer, site_function};

use crate::calls::{call_fits, return_fits};
use crate::operands::{is_pointer, is_size, of_some_type, puts_leaf, puts_pointer, stored_fits};
use crate::setting::Setting;
use crate::values::{condition_fits, set_fits};
use core_ir::{Function, Operand, Step};
use std::alloc::Global;
use sv_base::NoMemory;

/// Steps that are left, with so many blocks around them.
#[derive(Clone, Copy)]
pub(crate) struct Left<'a> {
    pub(crate) blocks: u32,
    pub(crate) steps: &'a [Step],
}

// A step, with so many blocks around it.
#[derive(Clone, Copy)]
struct Here<'a> {
    blocks: u32,
    step: &'a Step,
}

fn sum_fits(f: &Function, to: u32, base: u32, index: Operand, size: i64) -> bool
    ensures { IsTrue result → APointer (function_of f.now) base × OfSomeType (function_of f.now) index × IsSize size × PutsPointer (function_of f.now) to }
{
    is_pointer(f, base)
        && of_some_type(f, index)
        && is_size(i128::from(size))
        && puts_pointer(f, to)
}

// Whether the site is one of the function with this number.
fn is_site(x: &Setting<'_>, number: u32, site: u32) -> bool
    ensures { IsTrue result → site_function (program_of x.now.core.now) site ≡ Some number }
{
    match x.core.sites.get(site as usize) {
        Some(site) => site.function.0 == number,
        None => false,
    }
}

// Whether a step fits, those inside it aside.
fn fits_alone(x: &Setting<'_>, number: u32, f: &Function, here: Here<'_>) -> bool {
    match here.step {
        Step::Set { to, value } => set_fits(x, f, *to, *value),
        Step::Sum {
            to,
            base,
            index,
            size,
        } => sum_fits(f, *to, *base, *index, *size),
        Step::Check { site, address, .. } => {
            is_site(x, number, site.0) && is_pointer(f, *address)
        }
        Step::Sub { to, address, part } => {
            is_pointer(f, *address) && (*part as usize) < x.core.parts.len() && puts_pointer(f, *to)
        }
        Step::Load {
            to,
            address,
            leaf,
            ..
        } => is_pointer(f, *address) && puts_leaf(f, *leaf, *to),
        Step::Store {
            address,
            value,
            leaf,
        } => is_pointer(f, *address) && stored_fits(f, *leaf, *value),
        Step::CopyObject { to, from, .. } => is_pointer(f, *to) && is_pointer(f, *from),
        Step::Begin { object, .. } => x.is_object(*object),
        Step::Call { to, callee, args } => call_fits(x, f, *to, *callee, args),
        Step::If { cond, .. } => condition_fits(f, *cond),
        Step::Block(_) => true,
        Step::Loop(_) => true,
        Step::Exit(block) => *block < here.blocks,
        Step::Return(value) => return_fits(f, *value),
    }
}

// The next step of those that are left, of which the last list comes first.
fn next_step<'a>(left: &mut Vec<Left<'a>>) -> Result<Option<Here<'a>>, NoMemory> {
    while let Some(last) = left.pop() {
        if let Some((step, steps)) = last.steps.split_first() {
            let blocks = last.blocks;
            left.push(Left { blocks, steps })?;
            return Ok(Some(Here { blocks, step }));
        }
    }
    Ok(None)
}

// The steps inside a step come before all others.
fn enter<'a>(left: &mut Vec<Left<'a>>, here: Here<'a>) -> Result<(), NoMemory> {
    let blocks = here.blocks;
    match here.step {
        Step::If { then, other, .. } => {
            left.push(Left {
                blocks,
                steps: other,
            })?;
            left.push(Left {
                blocks,
                steps: then,
            })?;
        }
        Step::Block(body) => {
            let blocks = blocks.checked_add(1).ok_or(NoMemory)?;
            left.push(Left {
                blocks,
                steps: body,
            })?;
        }
        Step::Loop(body) => left.push(Left {
            blocks,
            steps: body,
        })?,
        _ => {}
    }
    Ok(())
}

/// Whether the steps of a function fit.
pub(crate) fn body_fits(
    alloc: Global,
    x: &Setting<'_>,
    number: u32,
    f: &Function,
) -> Result<bool, NoMemory> {
    let mut left = Vec::new(alloc);
    left.push(Left {
        blocks: 0,
        steps: &f.body,
    })?;
    for _ in 0..u64::MAX {
        match next_step(&mut left)? {
            None => return Ok(true),
            Some(here) => {
                if !fits_alone(x, number, f, here) {
                    return Ok(false);
                }
                enter(&mut left, here)?;
            }
        }
    }
    Ok(false)
}
