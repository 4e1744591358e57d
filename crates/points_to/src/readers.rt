//! Which constraints read the set of a node.
ghost use Rattle.std.specs.Prelude.{◌≡◌, ℕ, ◌<◌, Some, length, IfOk, OnOk};
ghost use Rattle.points_to.specs.computed.RuleParts.{Each, Then};
ghost use Rattle.points_to.specs.computed.Progress.{AreEmpty};
ghost use Rattle.points_to.specs.computed.Readers.{read_node, constraint_lists, entered, AreReaders};

use crate::rule;
use crate::rule::Side;
use core_ir::Constraint;
use std::alloc::Global;
use sv_base::NoMemory;

fn empty_lists(alloc: Global, count: u32) -> Result<Vec<Vec<Constraint>>, NoMemory>
    ensures { IfOk result (λ lists. AreEmpty count (constraint_lists lists.items)) }
{
    let mut lists = Vec::new(alloc);
    for _ in 0..count {
        lists.push(Vec::new(alloc))?;
    }
    Ok(lists)
}

fn enter(
    lists: &mut Vec<Vec<Constraint>>,
    node: Option<u32>,
    constraint: Constraint,
) -> Result<(), NoMemory>
    requires { Then node (λ n. n < length lists.old.items) }
    ensures { OnOk result (constraint_lists lists.new.items ≡ entered node constraint (constraint_lists lists.old.items)) }
{
    match node {
        Some(node) => {
            lists[node as usize].push(constraint)?;
            return Ok(());
        }
        None => return Ok(()),
    }
}

/// By node, the constraints that read its set on a side.
pub(crate) fn readers(
    alloc: Global,
    nodes: u32,
    all: &[Constraint],
    side: Side,
) -> Result<Vec<Vec<Constraint>>, NoMemory>
    requires { Each all.now (λ c. (node : ℕ) → read_node side c ≡ Some node → node < nodes) }
    ensures { IfOk result (λ lists. AreReaders side nodes all.now (constraint_lists lists.items)) }
{
    let mut lists = empty_lists(alloc, nodes)?;
    for constraint in all {
        enter(&mut lists, rule::read_node(side, *constraint), *constraint)?;
    }
    Ok(lists)
}
