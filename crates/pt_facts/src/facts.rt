ghost use Rattle.std.specs.Prelude.{◌≡◌, ◌<◌, ◌≤◌, ◌+◌, ◌++◌, ◌^◌, ◌↔◌, IfOk, OnOk, Contains, Some, flat_map, length, map, slice_get};
ghost use Rattle.std.specs.List.Sorted.{IsStrictlySortedBy};
ghost use Rattle.core_ir.specs.declared.artifacts.Constraint.{Constraint};
ghost use Rattle.core_ir.specs.Constraints.{constraint_cmp};
ghost use Rattle.core_ir.specs.Order.{text_order};
ghost use Rattle.pt_facts.specs.computed.Bases.{IsCaller, bases_from};
ghost use Rattle.pt_facts.specs.Facts.{body_facts, facts_of, initial_facts, step_facts};
ghost use Rattle.pt_facts.specs.Nodes.{base_of, function_count, register_count, registers_of};

use crate::body::push_step;
use crate::caller::Caller;
use crate::nodes::{base_at, bases, register_count};
use crate::starts::push_starts;
use core_ir::{Constraint, CoreProgram, Function, in_order};
use std::alloc::Global;
use sv_base::{FuncId, NoMemory};

fn push_steps(alloc: Global, facts: &mut Vec<Constraint>, x: &Caller<'_>) -> Result<(), NoMemory>
    requires { IsCaller x.now }
    ensures { OnOk result (facts.new.items ≡ facts.old.items ++ flat_map (step_facts x.now.functions.now x.now.count x.now.base x.now.f.now) (text_order x.now.f.now.body.items)) }
{
    let steps = in_order(alloc, &x.f.body)?;
    for step in &steps {
        push_step(facts, x, *step)?;
    }
    Ok(())
}

#[tactic(auto, using(crate::proofs::Basing::found_below, crate::proofs::Basing::room_for))]
fn push_function(
    alloc: Global,
    facts: &mut Vec<Constraint>,
    functions: &[Function],
    count: u32,
    i: u32,
    f: &Function,
) -> Result<(), NoMemory>
    requires nodes { registers_of functions.now < 2 ^ 32 }
    requires functions { count ≤ 2 ^ 31 }
    requires found { slice_get functions.now i ≡ Some f.now }
    ensures { OnOk result (facts.new.items ≡ facts.old.items ++ body_facts functions.now count (base_of functions.now i) (Some f.now)) }
{
    let bases = bases(alloc, functions)?;
    let base = base_at(functions, &bases, i);
    let x = Caller {
        functions,
        bases: &bases,
        count,
        base,
        f,
    };
    push_steps(alloc, facts, &x)
}

// What the steps of a function give.
fn push_body(
    alloc: Global,
    facts: &mut Vec<Constraint>,
    functions: &[Function],
    count: u32,
    i: u32,
) -> Result<(), NoMemory>
    requires nodes { registers_of functions.now < 2 ^ 32 }
    requires functions { count ≤ 2 ^ 31 }
    ensures { OnOk result (facts.new.items ≡ facts.old.items ++ body_facts functions.now count (base_of functions.now i) (slice_get functions.now i)) }
{
    match functions.get(i as usize) {
        Some(f) => push_function(alloc, facts, functions, count, i, f),
        None => Ok(()),
    }
}

fn push_initial(facts: &mut Vec<Constraint>, p: &CoreProgram, i: u32) -> Result<(), NoMemory>
    requires nodes { registers_of p.now.functions.items + length p.now.pointer_starts.items < 2 ^ 32 }
    ensures { OnOk result (facts.new.items ≡ facts.old.items ++ initial_facts p.now i) }
{
    if i == 0 {
        push_starts(
            facts,
            &p.classes.leaves,
            register_count(&p.functions),
            &p.pointer_starts,
        )
    } else {
        Ok(())
    }
}

fn gathered(alloc: Global, p: &CoreProgram, i: u32) -> Result<Vec<Constraint>, NoMemory>
    requires nodes { registers_of p.now.functions.items + length p.now.pointer_starts.items < 2 ^ 32 }
    requires functions { function_count p.now ≤ 2 ^ 31 }
    ensures { IfOk result (λ facts. facts.items ≡ facts_of p.now i) }
{
    let mut facts = Vec::new(alloc);
    let count = (p.functions.len() + p.externals.len()) as u32;
    push_body(alloc, &mut facts, &p.functions, count, i)?;
    push_initial(&mut facts, p, i)?;
    Ok(facts)
}

/// The constraints that a function gives, each once and in the order of their bytes. The first function has those of the static
/// initialisers too.
pub fn constraints(alloc: Global, p: &CoreProgram, f: FuncId) -> Result<Vec<Constraint>, NoMemory>
    requires nodes { registers_of p.now.functions.items + length p.now.pointer_starts.items < 2 ^ 32 }
    requires functions { function_count p.now ≤ 2 ^ 31 }
    ensures ascending { IfOk result (λ list. IsStrictlySortedBy constraint_cmp list.items) }
    ensures members { IfOk result (λ list. (c : Constraint) → Contains list.items c ↔ Contains (facts_of p.now f.0) c) }
{
    let mut facts = gathered(alloc, p, f.0)?;
    facts.sort()?;
    facts.dedup();
    Ok(facts)
}
