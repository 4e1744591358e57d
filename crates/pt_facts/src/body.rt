ghost use Rattle.std.specs.Prelude.{◌≡◌, ◌<◌, ◌+◌, ◌++◌, ◌^◌, IfOk, OnOk, Some, slice_get};
ghost use Rattle.pt_facts.specs.computed.Bases.{IsCaller};
ghost use Rattle.pt_facts.specs.Facts.{argument_facts, call_facts, direct_facts, made, passed_facts, return_facts, set_facts, step_facts, through_facts};
ghost use Rattle.pt_facts.specs.Nodes.{base_of, node_of_some, register_count};

use crate::caller::Caller;
use crate::nodes::{base_at, member_of, node_of, node_of_some};
use core_ir::{Callee, Constraint, Function, Operand, Step, Value};
use sv_base::{FuncId, NoMemory};

pub(crate) fn push(
    facts: &mut Vec<Constraint>,
    rule: u8,
    target: Option<u32>,
    source: Option<u32>,
    third: u32,
) -> Result<(), NoMemory>
    ensures { OnOk result (facts.new.items ≡ facts.old.items ++ made rule target source third) }
{
    if let (Some(target), Some(source)) = (target, source) {
        facts.push(Constraint {
            rule,
            target,
            source,
            third,
        })?;
    }
    Ok(())
}

// More than 2 ^ 32 arguments are more than there is room for.
fn next(i: u32) -> Result<u32, NoMemory>
    ensures { IfOk result (λ n. n ≡ i + 1) }
{
    match i.checked_add(1) {
        Some(n) => Ok(n),
        None => Err(NoMemory),
    }
}

fn push_set(
    facts: &mut Vec<Constraint>,
    x: &Caller<'_>,
    to: u32,
    value: Value,
) -> Result<(), NoMemory>
    requires { IsCaller x.now }
    ensures { OnOk result (facts.new.items ≡ facts.old.items ++ set_facts x.now.count x.now.base x.now.f.now to value) }
{
    let target = x.node(to);
    match value {
        Value::Address(object) => push(facts, 1, target, Some(object), 0),
        Value::Function(g) => push(facts, 1, target, member_of(x.count, g), 0),
        Value::Copy(a) => push(facts, 2, target, x.operand(a), 0),
        _ => Ok(()),
    }
}

fn push_passed(
    facts: &mut Vec<Constraint>,
    x: &Caller<'_>,
    entry: u32,
    callee: &Function,
    args: &[Operand],
) -> Result<(), NoMemory>
    requires caller { IsCaller x.now }
    requires room { entry + register_count callee.now < 2 ^ 32 }
    ensures { OnOk result (facts.new.items ≡ facts.old.items ++ passed_facts x.now.base x.now.f.now entry callee.now 0 args.now) }
{
    let mut i = 0;
    for a in args {
        push(facts, 2, node_of(entry, callee, i), x.operand(*a), 0)?;
        i = next(i)?;
    }
    Ok(())
}

fn push_arguments(
    facts: &mut Vec<Constraint>,
    x: &Caller<'_>,
    register: u32,
    args: &[Operand],
) -> Result<(), NoMemory>
    requires { IsCaller x.now }
    ensures { OnOk result (facts.new.items ≡ facts.old.items ++ argument_facts x.now.base x.now.f.now register 0 args.now) }
{
    let mut i = 0;
    for a in args {
        push(facts, 7, x.node(register), x.operand(*a), i)?;
        i = next(i)?;
    }
    Ok(())
}

fn push_result(
    facts: &mut Vec<Constraint>,
    x: &Caller<'_>,
    to: Option<u32>,
    entry: u32,
    callee: &Function,
) -> Result<(), NoMemory>
    requires caller { IsCaller x.now }
    requires room { entry + register_count callee.now < 2 ^ 32 }
    ensures { OnOk result (facts.new.items ≡ facts.old.items ++ made 2 (node_of_some x.now.base x.now.f.now to) (node_of_some entry callee.now callee.now.result) 0) }
{
    push(
        facts,
        2,
        x.node_of_some(to),
        node_of_some(entry, callee, callee.result),
        0,
    )
}

#[tactic(auto, using(crate::proofs::Basing::found_below, crate::proofs::Basing::room_for))]
fn push_called(
    facts: &mut Vec<Constraint>,
    x: &Caller<'_>,
    to: Option<u32>,
    g: u32,
    callee: &Function,
    args: &[Operand],
) -> Result<(), NoMemory>
    requires caller { IsCaller x.now }
    requires found { slice_get x.now.functions.now g ≡ Some callee.now }
    ensures { OnOk result (facts.new.items ≡ facts.old.items ++ direct_facts x.now.base x.now.f.now to (base_of x.now.functions.now g) (Some callee.now) args.now) }
{
    let entry = base_at(x.functions, x.bases, g);
    push_passed(facts, x, entry, callee, args)?;
    push_result(facts, x, to, entry, callee)
}

fn push_direct(
    facts: &mut Vec<Constraint>,
    x: &Caller<'_>,
    to: Option<u32>,
    g: FuncId,
    args: &[Operand],
) -> Result<(), NoMemory>
    requires { IsCaller x.now }
    ensures { OnOk result (facts.new.items ≡ facts.old.items ++ direct_facts x.now.base x.now.f.now to (base_of x.now.functions.now g.0) (slice_get x.now.functions.now g.0) args.now) }
{
    match x.functions.get(g.0 as usize) {
        Some(callee) => push_called(facts, x, to, g.0, callee, args),
        None => Ok(()),
    }
}

fn push_through(
    facts: &mut Vec<Constraint>,
    x: &Caller<'_>,
    to: Option<u32>,
    register: u32,
    args: &[Operand],
) -> Result<(), NoMemory>
    requires { IsCaller x.now }
    ensures { OnOk result (facts.new.items ≡ facts.old.items ++ through_facts x.now.base x.now.f.now to register args.now) }
{
    push_arguments(facts, x, register, args)?;
    push(facts, 8, x.node_of_some(to), x.node(register), 0)
}

fn push_call(
    facts: &mut Vec<Constraint>,
    x: &Caller<'_>,
    to: Option<u32>,
    callee: Callee,
    args: &[Operand],
) -> Result<(), NoMemory>
    requires { IsCaller x.now }
    ensures { OnOk result (facts.new.items ≡ facts.old.items ++ call_facts x.now.functions.now x.now.base x.now.f.now to callee args.now) }
{
    match callee {
        Callee::Direct(g) => push_direct(facts, x, to, g, args),
        Callee::Through { register, .. } => push_through(facts, x, to, register, args),
        Callee::External(_) => Ok(()),
    }
}

fn push_return(
    facts: &mut Vec<Constraint>,
    x: &Caller<'_>,
    value: Option<Operand>,
) -> Result<(), NoMemory>
    requires { IsCaller x.now }
    ensures { OnOk result (facts.new.items ≡ facts.old.items ++ return_facts x.now.base x.now.f.now value) }
{
    match value {
        Some(a) => push(facts, 2, x.node_of_some(x.f.result), x.operand(a), 0),
        None => Ok(()),
    }
}

/// Adds what a step itself gives.
pub(crate) fn push_step(
    facts: &mut Vec<Constraint>,
    x: &Caller<'_>,
    step: &Step,
) -> Result<(), NoMemory>
    requires { IsCaller x.now }
    ensures { OnOk result (facts.new.items ≡ facts.old.items ++ step_facts x.now.functions.now x.now.count x.now.base x.now.f.now step.now) }
{
    match step {
        Step::Set { to, value } => push_set(facts, x, *to, *value),
        Step::Sum { to, base, .. } => push(facts, 2, x.node(*to), x.node(*base), 0),
        Step::Load { to, address, .. } => push(facts, 3, x.node(*to), x.node(*address), 0),
        Step::Store { address, value, .. } => push(
            facts,
            4,
            x.node(*address),
            x.operand(*value),
            0,
        ),
        Step::Sub { to, address, part } => push(facts, 5, x.node(*to), x.node(*address), *part),
        Step::CopyObject { to, from, layout } => push(
            facts,
            6,
            x.node(*to),
            x.node(*from),
            *layout,
        ),
        Step::Call { to, callee, args } => push_call(facts, x, *to, *callee, args),
        Step::Return(value) => push_return(facts, x, *value),
        _ => Ok(()),
    }
}
