ghost use Rattle.std.specs.Prelude.{◌≡◌, ◌++◌, IfOk, OnOk, None};
ghost use Rattle.std.specs.List.{filter_map};
ghost use Rattle.core_ir.specs.Order.{text_order};
ghost use Rattle.var_clusters.specs.Pairs.{register_of, only_one, source, target, is_named, named_target, assigned, neighbours_after, paired, argument_pairs, condition_pairs, base_of, operand_register, step_pairs, pairs};

use c_values::Op;
use core_ir::{Cond, Function, Operand, Register, Step, Value, in_order};
use std::alloc::Global;
use sv_base::NoMemory;

fn register_of(operand: Operand) -> Option<u32>
    ensures { result ≡ register_of operand }
{
    match operand {
        Operand::Reg(r) => Some(r),
        Operand::Const(_) => None,
    }
}

fn only_one(a: Option<u32>, b: Option<u32>) -> Option<u32>
    ensures { result ≡ only_one a b }
{
    match (a, b) {
        (Some(r), None) => Some(r),
        (None, Some(r)) => Some(r),
        _ => None,
    }
}

fn source(value: Value) -> Option<u32>
    ensures { result ≡ source value }
{
    match value {
        Value::Copy(a) => register_of(a),
        Value::Convert(_, a) => register_of(a),
        Value::Binary(Op::Add, _, a, b) => only_one(register_of(a), register_of(b)),
        Value::Binary(Op::Sub, _, a, b) => only_one(register_of(a), register_of(b)),
        _ => None,
    }
}

fn base_of(base: u32, index: Operand) -> Option<u32>
    ensures { result ≡ base_of base index }
{
    match index {
        Operand::Const(_) => Some(base),
        Operand::Reg(_) => None,
    }
}

fn operand_register(operand: Option<Operand>) -> Option<u32>
    ensures { result ≡ operand_register operand }
{
    match operand {
        Some(a) => register_of(a),
        None => None,
    }
}

fn target(step: &Step) -> Option<u32>
    ensures { result ≡ target step.now }
{
    match step {
        Step::Set { to, .. } => Some(*to),
        Step::Sum { to, .. } => Some(*to),
        Step::Sub { to, .. } => Some(*to),
        Step::Load { to, .. } => Some(*to),
        Step::Call { to, .. } => *to,
        _ => None,
    }
}

fn is_named(registers: &[Register], r: u32) -> bool
    ensures { result ≡ is_named registers.now r }
{
    match registers.get(r as usize) {
        Some(register) => register.named,
        None => false,
    }
}

// Where a step puts something into a named register, that register.
fn named_target(registers: &[Register], step: &Step) -> Option<u32>
    ensures { result ≡ named_target registers.now step.now }
{
    match target(step) {
        Some(r) if is_named(registers, r) => Some(r),
        _ => None,
    }
}

// The named registers that the steps put something into, as often as they do.
fn targets(alloc: Global, registers: &[Register], steps: &[Step]) -> Result<Vec<u32>, NoMemory>
    ensures { IfOk result (λ found. found.items ≡ filter_map (named_target registers.now) (text_order steps.now)) }
{
    let mut found = Vec::new(alloc);
    let all = in_order(alloc, steps)?;
    for step in &all {
        if let Some(r) = named_target(registers, *step) {
            found.push(r)?;
        }
    }
    Ok(found)
}

// The named registers that the steps put something into, each once and in the order of their numbers.
fn assigned(alloc: Global, registers: &[Register], steps: &[Step]) -> Result<Vec<u32>, NoMemory>
    ensures { IfOk result (λ found. found.items ≡ assigned registers.now (text_order steps.now)) }
{
    let mut found = targets(alloc, registers, steps)?;
    found.sort()?;
    found.dedup();
    Ok(found)
}

fn push_pair(pairs: &mut Vec<(u32, u32)>, a: Option<u32>, b: Option<u32>) -> Result<(), NoMemory>
    ensures { OnOk result (pairs.new.items ≡ pairs.old.items ++ paired a b) }
{
    if let (Some(first), Some(second)) = (a, b) {
        pairs.push((first, second))?;
    }
    Ok(())
}

fn push_neighbours(pairs: &mut Vec<(u32, u32)>, registers: &[u32]) -> Result<(), NoMemory>
    ensures { OnOk result (pairs.new.items ≡ pairs.old.items ++ neighbours_after None registers.now) }
{
    let mut last = None;
    for r in registers {
        push_pair(pairs, last, Some(*r))?;
        last = Some(*r);
    }
    Ok(())
}

fn push_argument_pairs(
    pairs: &mut Vec<(u32, u32)>,
    to: Option<u32>,
    args: &[Operand],
) -> Result<(), NoMemory>
    ensures { OnOk result (pairs.new.items ≡ pairs.old.items ++ argument_pairs to args.now) }
{
    for arg in args {
        push_pair(pairs, to, register_of(*arg))?;
    }
    Ok(())
}

fn push_condition_pairs(pairs: &mut Vec<(u32, u32)>, cond: Cond) -> Result<(), NoMemory>
    ensures { OnOk result (pairs.new.items ≡ pairs.old.items ++ condition_pairs cond) }
{
    match cond {
        Cond::Ints(_, a, b) => push_pair(pairs, register_of(a), register_of(b)),
        _ => Ok(()),
    }
}

fn push_loop_pairs(
    alloc: Global,
    pairs: &mut Vec<(u32, u32)>,
    registers: &[Register],
    body: &[Step],
) -> Result<(), NoMemory>
    ensures { OnOk result (pairs.new.items ≡ pairs.old.items ++ neighbours_after None (assigned registers.now (text_order body.now))) }
{
    let named = assigned(alloc, registers, body)?;
    push_neighbours(pairs, &named)
}

fn push_step_pairs(
    alloc: Global,
    pairs: &mut Vec<(u32, u32)>,
    f: &Function,
    step: &Step,
) -> Result<(), NoMemory>
    ensures { OnOk result (pairs.new.items ≡ pairs.old.items ++ step_pairs f.now.registers.items f.now.result step.now) }
{
    match step {
        Step::Set { to, value } => push_pair(pairs, Some(*to), source(*value)),
        Step::Sum {
            to,
            base,
            index,
            ..
        } => push_pair(pairs, Some(*to), base_of(*base, *index)),
        Step::Call { to, args, .. } => push_argument_pairs(pairs, *to, args),
        Step::If { cond, .. } => push_condition_pairs(pairs, *cond),
        Step::Loop(body) => push_loop_pairs(alloc, pairs, &f.registers, body),
        Step::Return(value) => push_pair(pairs, f.result, operand_register(*value)),
        _ => Ok(()),
    }
}

/// The pairs of registers that may share a cluster, in the order of the text.
pub(crate) fn pairs(alloc: Global, f: &Function) -> Result<Vec<(u32, u32)>, NoMemory>
    ensures { IfOk result (λ all. all.items ≡ pairs f.now) }
{
    let mut all = Vec::new(alloc);
    let steps = in_order(alloc, &f.body)?;
    for step in &steps {
        push_step_pairs(alloc, &mut all, f, *step)?;
    }
    Ok(all)
}
