//! Whether the nodes of constraints and of a class table are in range.
ghost use Rattle.std.specs.Prelude.{◌≡◌, ℕ, ◌<◌, ◌↔◌, IsTrue};
ghost use Rattle.points_to.specs.computed.RuleParts.{Each, Then};
ghost use Rattle.points_to.specs.Fits.{Fits, IsFunctionWithin, IsTableWithin, IsConstraintWithin};

use crate::rule;
use core_ir::{ClassTable, Constraint, FunctionNodes};

fn is_below(nodes: u32, node: Option<u32>) -> bool
    ensures { IsTrue result ↔ Then node (λ n. n < nodes) }
{
    match node {
        Some(node) => return node < nodes,
        None => return true,
    }
}

fn are_below(nodes: u32, entries: &[u32]) -> bool
    ensures { IsTrue result ↔ Each entries.now (λ n. n < nodes) }
{
    for node in entries {
        if *node >= nodes {
            return false;
        }
    }
    true
}

fn is_function_within(nodes: u32, function: &FunctionNodes) -> bool
    ensures { IsTrue result ↔ IsFunctionWithin nodes function.now }
{
    are_below(nodes, &function.entries) && is_below(nodes, function.result)
}

fn are_functions_within(nodes: u32, functions: &[FunctionNodes]) -> bool
    ensures { IsTrue result ↔ Each functions.now (IsFunctionWithin nodes) }
{
    for function in functions {
        if !is_function_within(nodes, function) {
            return false;
        }
    }
    true
}

fn is_table_within(nodes: u32, classes: &ClassTable) -> bool
    ensures { IsTrue result ↔ IsTableWithin nodes classes.now }
{
    if classes.registers > nodes || classes.leaves.len() > (nodes - classes.registers) as usize {
        return false;
    }
    are_functions_within(nodes, &classes.nodes)
}

// Where `table` says whether the nodes of the class table are in range.
fn is_constraint_within(
    nodes: u32,
    classes: &ClassTable,
    table: bool,
    constraint: Constraint,
) -> bool
    requires { IsTrue table ↔ IsTableWithin nodes classes.now }
    ensures { IsTrue result ↔ IsConstraintWithin nodes classes.now constraint }
{
    let rule = rule::rule_of(constraint.rule);
    constraint.target < nodes
        && (!rule::has_source(rule) || constraint.source < nodes)
        && (!rule::uses_table(rule) || table)
}

/// Whether all nodes that constraints name, and those that they reach by the class table, are below `nodes`.
pub fn fits(nodes: u32, all: &[Constraint], classes: &ClassTable) -> bool
    ensures { IsTrue result ↔ Fits nodes all.now classes.now }
{
    let table = is_table_within(nodes, classes);
    for constraint in all {
        if !is_constraint_within(nodes, classes, table, *constraint) {
            return false;
        }
    }
    true
}
