ghost use Rattle.std.specs.Prelude.{◌≡◌, ◌<◌, ◌+◌, ◌++◌, ◌^◌, IfOk, OnOk, Some, flat_map, length, slice_get};
ghost use Rattle.core_ir.specs.Plain.{lists_of};
ghost use Rattle.pt_facts.specs.Facts.{class_facts, made, start_facts};
ghost use Rattle.pt_facts.specs.Nodes.{node_if_pointer};

use crate::body::push;
use crate::nodes::node_if_pointer;
use core_ir::{Constraint, Leaf};
use sv_base::NoMemory;

// The node of a leaf class that holds a pointer.
fn class_node(leaves: &[Leaf], registers: u32, c: u32) -> Option<u32>
    requires room { registers + c < 2 ^ 32 }
    ensures { result ≡ node_if_pointer (registers + c) (slice_get leaves.now c) }
{
    match leaves.get(c as usize) {
        Some(leaf) => node_if_pointer(registers + c, Some(*leaf)),
        None => None,
    }
}

fn push_targets(
    facts: &mut Vec<Constraint>,
    node: Option<u32>,
    targets: &[u32],
) -> Result<(), NoMemory>
    ensures { OnOk result (facts.new.items ≡ facts.old.items ++ flat_map (λ target. made 1 node (Some target) 0) targets.now) }
{
    for target in targets {
        push(facts, 1, node, Some(*target), 0)?;
    }
    Ok(())
}

#[tactic(auto, unfolding(crate::specs::Facts::class_facts))]
fn push_class(
    facts: &mut Vec<Constraint>,
    leaves: &[Leaf],
    registers: u32,
    c: u32,
    targets: &[u32],
) -> Result<(), NoMemory>
    requires room { registers + c < 2 ^ 32 }
    ensures { OnOk result (facts.new.items ≡ facts.old.items ++ class_facts leaves.now registers c targets.now) }
{
    push_targets(facts, class_node(leaves, registers, c), targets)
}

/// Adds what static initialisers give, by leaf class. `registers` is the number of all registers.
pub(crate) fn push_starts(
    facts: &mut Vec<Constraint>,
    leaves: &[Leaf],
    registers: u32,
    starts: &[Vec<u32>],
) -> Result<(), NoMemory>
    requires room { registers + length starts.now < 2 ^ 32 }
    ensures { OnOk result (facts.new.items ≡ facts.old.items ++ start_facts leaves.now registers 0 (lists_of starts.now)) }
{
    let mut c = 0u32;
    for targets in starts {
        push_class(facts, leaves, registers, c, targets)?;
        c += 1;
    }
    Ok(())
}
