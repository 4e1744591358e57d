//! Whether a family of sets is closed under constraints.
ghost use Rattle.std.specs.Prelude.{◌≡◌, ℕ, ◌<◌, ◌≤◌, ◌↔◌, IsTrue, true, [], length, slice_get, slice_index_or, Some};
ghost use Rattle.core_ir.specs.Plain.{lists_of};
ghost use Rattle.points_to.specs.Sets.{has};
ghost use Rattle.points_to.specs.Families.{Family, Has, Flows, family_of};
ghost use Rattle.points_to.specs.Rules.{Meets, IsClosed};
ghost use Rattle.points_to.specs.computed.RuleParts.{Each, TakesLeaves, GivesLeaves, TakesParts, TakesLeaf, TakesLike, TakesLayouts, TakesObject, TakesObjects, GivesEntry, TakesResult};

use crate::rule::Rule;
use crate::{rule, table};
use core_ir::{ClassTable, Constraint, LayoutPart, Solution};

// The place from `at` on of the first number that is not below this one.
fn advance(numbers: &[u32], at: usize, number: u32) -> usize {
    let mut next = at;
    while next < numbers.len() && numbers[next] < number {
        next += 1;
    }
    next
}

// Whether a number is at a place, or else anywhere.
fn is_among(numbers: &[u32], at: usize, number: u32) -> bool
    ensures { result ≡ has numbers.now number }
{
    if at < numbers.len() && numbers[at] == number {
        return true;
    }
    numbers.contains(&number)
}

// Whether each number of the first list is in the second. In ascending lists that is one walk over both.
fn is_within(numbers: &[u32], others: &[u32]) -> bool
    ensures { IsTrue result ↔ ((n : ℕ) → has numbers.now n ≡ true → has others.now n ≡ true) }
{
    let mut at = 0;
    for number in numbers {
        at = advance(others, at, *number);
        if !is_among(others, at, *number) {
            return false;
        }
    }
    true
}

fn set_of(sets: &[Vec<u32>], node: usize) -> &[u32]
    ensures { result.now ≡ slice_index_or (lists_of sets.now) node [] }
{
    match sets.get(node) {
        Some(set) => set.as_slice(),
        None => &[],
    }
}

fn has(sets: &[Vec<u32>], node: usize, member: u32) -> bool
    ensures { result ≡ family_of (lists_of sets.now) node member }
{
    set_of(sets, node).contains(&member)
}

fn flows(sets: &[Vec<u32>], from: usize, to: usize) -> bool
    ensures { IsTrue result ↔ Flows (family_of (lists_of sets.now)) from to }
{
    is_within(set_of(sets, from), set_of(sets, to))
}

#[tactic(auto, unfolding(crate::specs::computed::RuleParts::TakesLeaves))]
fn takes_leaves(classes: &ClassTable, sets: &[Vec<u32>], member: u32, to: usize) -> bool
    ensures { IsTrue result ↔ TakesLeaves classes.now (Flows (family_of (lists_of sets.now))) member to }
{
    for leaf in table::leaves(classes, member) {
        if let Some(node) = table::pointer(classes, *leaf)
            && !flows(sets, node, to)
        {
            return false;
        }
    }
    true
}

#[tactic(auto, unfolding(crate::specs::computed::RuleParts::GivesLeaves))]
fn gives_leaves(classes: &ClassTable, sets: &[Vec<u32>], from: usize, member: u32) -> bool
    ensures { IsTrue result ↔ GivesLeaves classes.now (Flows (family_of (lists_of sets.now))) from member }
{
    for leaf in table::leaves(classes, member) {
        if let Some(node) = table::pointer(classes, *leaf)
            && !flows(sets, from, node)
        {
            return false;
        }
    }
    true
}

#[tactic(auto, unfolding(crate::specs::computed::RuleParts::TakesParts))]
fn takes_parts(classes: &ClassTable, sets: &[Vec<u32>], number: u32, member: u32, to: usize) -> bool
    ensures { IsTrue result ↔ TakesParts classes.now (Has (family_of (lists_of sets.now))) number member to }
{
    for part in table::parts(classes, member) {
        if part.part == number && !has(sets, to, part.class) {
            return false;
        }
    }
    true
}

#[tactic(auto, unfolding(crate::specs::computed::RuleParts::TakesLeaf))]
fn takes_leaf(classes: &ClassTable, sets: &[Vec<u32>], target: u32, source: u32) -> bool
    ensures { IsTrue result ↔ TakesLeaf classes.now (Flows (family_of (lists_of sets.now))) target source }
{
    match (
        table::pointer(classes, target),
        table::pointer(classes, source),
    ) {
        (Some(to), Some(from)) => return flows(sets, from, to),
        (Some(_), None) | (None, _) => return true,
    }
}

#[tactic(auto, unfolding(crate::specs::computed::RuleParts::TakesLike))]
fn takes_like(classes: &ClassTable, sets: &[Vec<u32>], targets: &[u32], sources: &[u32]) -> bool
    ensures { IsTrue result ↔ TakesLike classes.now (Flows (family_of (lists_of sets.now))) targets.now sources.now }
{
    for place in 0..targets.len().min(sources.len()) {
        if !takes_leaf(classes, sets, targets[place], sources[place]) {
            return false;
        }
    }
    true
}

fn takes_layout(
    classes: &ClassTable,
    sets: &[Vec<u32>],
    layout: u32,
    target: &LayoutPart,
    sources: &[u32],
) -> bool
    ensures { IsTrue result ↔ (target.now.layout ≡ layout → TakesLike classes.now (Flows (family_of (lists_of sets.now))) target.now.leaves.items sources.now) }
{
    if target.layout != layout {
        return true;
    }
    takes_like(classes, sets, &target.leaves, sources)
}

fn takes_layouts(
    classes: &ClassTable,
    sets: &[Vec<u32>],
    layout: u32,
    targets: &[LayoutPart],
    sources: &[u32],
) -> bool
    ensures { IsTrue result ↔ TakesLayouts classes.now (Flows (family_of (lists_of sets.now))) layout targets.now sources.now }
{
    for target in targets {
        if !takes_layout(classes, sets, layout, target, sources) {
            return false;
        }
    }
    true
}

fn takes_source(
    classes: &ClassTable,
    sets: &[Vec<u32>],
    layout: u32,
    targets: &[LayoutPart],
    source: &LayoutPart,
) -> bool
    ensures { IsTrue result ↔ (source.now.layout ≡ layout → TakesLayouts classes.now (Flows (family_of (lists_of sets.now))) layout targets.now source.now.leaves.items) }
{
    if source.layout != layout {
        return true;
    }
    takes_layouts(classes, sets, layout, targets, &source.leaves)
}

fn takes_object(
    classes: &ClassTable,
    sets: &[Vec<u32>],
    layout: u32,
    target: u32,
    source: u32,
) -> bool
    ensures { IsTrue result ↔ TakesObject classes.now (Flows (family_of (lists_of sets.now))) layout target source }
{
    let targets = table::layouts(classes, target);
    for part in table::layouts(classes, source) {
        if !takes_source(classes, sets, layout, targets, part) {
            return false;
        }
    }
    true
}

fn takes_objects(
    classes: &ClassTable,
    sets: &[Vec<u32>],
    layout: u32,
    target: u32,
    sources: &[u32],
) -> bool
    ensures { IsTrue result ↔ TakesObjects classes.now (Flows (family_of (lists_of sets.now))) layout target sources.now }
{
    for source in sources {
        if !takes_object(classes, sets, layout, target, *source) {
            return false;
        }
    }
    true
}

#[tactic(auto, unfolding(crate::specs::computed::RuleParts::GivesEntry))]
fn gives_entry(
    classes: &ClassTable,
    sets: &[Vec<u32>],
    index: u32,
    from: usize,
    member: u32,
) -> bool
    ensures { IsTrue result ↔ GivesEntry classes.now (Flows (family_of (lists_of sets.now))) index from member }
{
    match table::entry(classes, member, index) {
        Some(node) => return flows(sets, from, node),
        None => return true,
    }
}

#[tactic(auto, unfolding(crate::specs::computed::RuleParts::TakesResult))]
fn takes_result(classes: &ClassTable, sets: &[Vec<u32>], member: u32, to: usize) -> bool
    ensures { IsTrue result ↔ TakesResult classes.now (Flows (family_of (lists_of sets.now))) member to }
{
    match table::outcome(classes, member) {
        Some(node) => return flows(sets, node, to),
        None => return true,
    }
}

fn meets_load(classes: &ClassTable, sets: &[Vec<u32>], from: usize, to: usize) -> bool
    ensures { IsTrue result ↔ Each (slice_index_or (lists_of sets.now) from []) (λ x. TakesLeaves classes.now (Flows (family_of (lists_of sets.now))) x to) }
{
    for member in set_of(sets, from) {
        if !takes_leaves(classes, sets, *member, to) {
            return false;
        }
    }
    true
}

fn meets_store(classes: &ClassTable, sets: &[Vec<u32>], from: usize, to: usize) -> bool
    ensures { IsTrue result ↔ Each (slice_index_or (lists_of sets.now) to []) (λ x. GivesLeaves classes.now (Flows (family_of (lists_of sets.now))) from x) }
{
    for member in set_of(sets, to) {
        if !gives_leaves(classes, sets, from, *member) {
            return false;
        }
    }
    true
}

fn meets_part(classes: &ClassTable, sets: &[Vec<u32>], number: u32, from: usize, to: usize) -> bool
    ensures { IsTrue result ↔ Each (slice_index_or (lists_of sets.now) from []) (λ x. TakesParts classes.now (Has (family_of (lists_of sets.now))) number x to) }
{
    for member in set_of(sets, from) {
        if !takes_parts(classes, sets, number, *member, to) {
            return false;
        }
    }
    true
}

fn meets_object_copy(
    classes: &ClassTable,
    sets: &[Vec<u32>],
    layout: u32,
    from: usize,
    to: usize,
) -> bool
    ensures { IsTrue result ↔ Each (slice_index_or (lists_of sets.now) to []) (λ x. TakesObjects classes.now (Flows (family_of (lists_of sets.now))) layout x (slice_index_or (lists_of sets.now) from [])) }
{
    for member in set_of(sets, to) {
        if !takes_objects(classes, sets, layout, *member, set_of(sets, from)) {
            return false;
        }
    }
    true
}

fn meets_argument(
    classes: &ClassTable,
    sets: &[Vec<u32>],
    index: u32,
    from: usize,
    callee: usize,
) -> bool
    ensures { IsTrue result ↔ Each (slice_index_or (lists_of sets.now) callee []) (λ x. GivesEntry classes.now (Flows (family_of (lists_of sets.now))) index from x) }
{
    for member in set_of(sets, callee) {
        if !gives_entry(classes, sets, index, from, *member) {
            return false;
        }
    }
    true
}

fn meets_result(classes: &ClassTable, sets: &[Vec<u32>], callee: usize, to: usize) -> bool
    ensures { IsTrue result ↔ Each (slice_index_or (lists_of sets.now) callee []) (λ x. TakesResult classes.now (Flows (family_of (lists_of sets.now))) x to) }
{
    for member in set_of(sets, callee) {
        if !takes_result(classes, sets, *member, to) {
            return false;
        }
    }
    true
}

fn meets(classes: &ClassTable, sets: &[Vec<u32>], constraint: Constraint) -> bool
    ensures { IsTrue result ↔ Meets classes.now (family_of (lists_of sets.now)) constraint }
{
    let to = constraint.target as usize;
    let from = constraint.source as usize;
    let third = constraint.third;
    match rule::rule_of(constraint.rule) {
        Rule::Address => return has(sets, to, constraint.source),
        Rule::Copy => return flows(sets, from, to),
        Rule::Load => return meets_load(classes, sets, from, to),
        Rule::Store => return meets_store(classes, sets, from, to),
        Rule::SubObject => return meets_part(classes, sets, third, from, to),
        Rule::ObjectCopy => return meets_object_copy(classes, sets, third, from, to),
        Rule::Argument => return meets_argument(classes, sets, third, from, to),
        Rule::Result => return meets_result(classes, sets, from, to),
        Rule::Unknown => return true,
    }
}

fn meets_each(classes: &ClassTable, sets: &[Vec<u32>], all: &[Constraint]) -> bool
    ensures { IsTrue result ↔ IsClosed classes.now all.now (family_of (lists_of sets.now)) }
{
    for constraint in all {
        if !meets(classes, sets, *constraint) {
            return false;
        }
    }
    true
}

/// Whether a family of sets, one list for each of `nodes` nodes, is closed under the constraints. It takes no memory, and where the
/// lists are ascending, time by their length.
pub fn closed(nodes: u32, all: &[Constraint], classes: &ClassTable, solution: &Solution) -> bool
    ensures { IsTrue result ↔ ((length solution.now.sets.items ≡ nodes) × IsClosed classes.now all.now (family_of (lists_of solution.now.sets.items))) }
{
    solution.sets.len() == nodes as usize && meets_each(classes, &solution.sets, all)
}
