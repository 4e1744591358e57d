ghost use Rattle.std.specs.Prelude.{◌≡◌, ◌++◌, IfOk, OnOk, map};
ghost use Rattle.core_ir.specs.Order.{steps_in, text_order};
ghost use Rattle.core_ir.specs.Walk.{pending, IsNext};

use crate::steps::Step;
use std::alloc::Global;
use sv_base::NoMemory;

// The next step of those that are left, of which the last list comes first.
fn next_step<'a>(left: &mut Vec<&'a [Step]>) -> Result<Option<&'a Step>, NoMemory>
    ensures { IfOk result (λ o. IsNext (pending left.old.items) o (pending left.new.items)) }
{
    while let Some(steps) = left.pop() {
        if let Some((first, rest)) = steps.split_first() {
            left.push(rest)?;
            return Ok(Some(first));
        }
    }
    Ok(None)
}

// The steps inside a step come before all others.
fn enter<'a>(left: &mut Vec<&'a [Step]>, step: &'a Step) -> Result<(), NoMemory>
    ensures { OnOk result (text_order (pending left.new.items) ≡ steps_in step.now ++ text_order (pending left.old.items)) }
{
    match step {
        Step::If { then, other, .. } => {
            left.push(other)?;
            left.push(then)?;
        }
        Step::Block(body) => left.push(body)?,
        Step::Loop(body) => left.push(body)?,
        _ => {}
    }
    Ok(())
}

/// The steps in the order of their text, each before those inside it.
pub fn in_order<'a>(alloc: Global, steps: &'a [Step]) -> Result<Vec<&'a Step>, NoMemory>
    ensures { IfOk result (λ all. map (λ x. x.now) all.items ≡ text_order steps.now) }
{
    let mut all = Vec::new(alloc);
    let mut left = Vec::new(alloc);
    left.push(steps)?;
    while let Some(step) = next_step(&mut left)? {
        all.push(step)?;
        enter(&mut left, step)?;
    }
    Ok(all)
}
