//! The least family of sets that is closed under constraints.
ghost use Rattle.std.specs.Prelude.{◌≡◌, ℕ, ◌<◌, Bool, true, length, slice_get, slice_index_or, Some, IfOk, OnOk};
ghost use Rattle.core_ir.specs.Plain.{lists_of};
ghost use Rattle.points_to.specs.declared.rule.Side.TheVariants as sides;
ghost use Rattle.points_to.specs.Sets.{has, IsSet};
ghost use Rattle.points_to.specs.Families.{Family, Has, family_of};
ghost use Rattle.points_to.specs.Named.{NamesOnly};
ghost use Rattle.points_to.specs.Rules.{IsClosed, rule_of};
ghost use Rattle.points_to.specs.computed.RuleParts.{Each};
ghost use Rattle.points_to.specs.Fits.{Fits, IsConstraintWithin, has_source};
ghost use Rattle.points_to.specs.computed.Progress.{Stands, IsMet, Flowed, done_of};
ghost use Rattle.points_to.specs.computed.Readers.{AreReaders, constraint_lists, reads_target, reads_source};
ghost use Rattle.points_to.specs.computed.Solving.{Opens, IsAsked, HandsOn, AreRuled, IsDone};

use crate::bits::Bits;
use crate::progress::Progress;
use crate::readers::readers;
use crate::rule::{Rule, Side};
use crate::{reacting, rule};
use core_ir::{ClassTable, Constraint, Solution};
use std::alloc::Global;
use sv_base::NoMemory;

// What a constraint asks where no set has a member.
fn open(found: &mut Progress, constraint: Constraint) -> Result<(), NoMemory>
    requires stands { Stands found.old }
    requires target { constraint.target < length found.old.done.items }
    requires source { has_source (rule_of constraint.rule) ≡ true → constraint.source < length found.old.done.items }
    ensures { OnOk result (IsMet (Opens (rule_of constraint.rule) constraint) found.old found.new) }
{
    let target = constraint.target as usize;
    match rule::rule_of(constraint.rule) {
        Rule::Address => return found.add(target, constraint.source),
        Rule::Copy => return found.link(constraint.source as usize, target),
        _ => return Ok(()),
    }
}

fn open_all(found: &mut Progress, classes: &ClassTable, all: &[Constraint]) -> Result<(), NoMemory>
    requires stands { Stands found.old }
    requires fits { Fits (length found.old.done.items) all.now classes.now }
    ensures { OnOk result (IsMet (λ flows gets. Each all.now (λ c. Opens (rule_of c.rule) c flows gets)) found.old found.new) }
{
    for constraint in all {
        open(found, *constraint)?;
    }
    Ok(())
}

// Hands members of a node on, and meets the constraints that read its set for them.
fn visit(
    found: &mut Progress,
    classes: &ClassTable,
    targets: &[Constraint],
    sources: &[Constraint],
    node: usize,
    delta: &Bits,
) -> Result<(), NoMemory>
    requires stands { Stands found.old }
    requires node { node < length found.old.done.items }
    requires targets_within { Each targets.now (IsConstraintWithin (length found.old.done.items) classes.now) }
    requires targets_read { Each targets.now (λ c. reads_target (rule_of c.rule) ≡ true) }
    requires sources_within { Each sources.now (IsConstraintWithin (length found.old.done.items) classes.now) }
    requires sources_read { Each sources.now (λ c. reads_source (rule_of c.rule) ≡ true) }
    ensures met { OnOk result (IsMet (IsAsked classes.now found.old targets.now sources.now node delta.now) found.old found.new) }
    ensures flowed { OnOk result (HandsOn node delta.now found.old found.new) }
{
    found.hand_on(node, delta)?;
    if targets.is_empty() && sources.is_empty() {
        return Ok(());
    }
    let alloc = *found.done.allocator();
    let members = delta.members(alloc)?;
    reacting::meet_targets(found, classes, targets, &members)?;
    reacting::meet_sources(found, classes, sources, &members)?;
    Ok(())
}

// Visits nodes until no members are still to be handed on.
fn run(
    found: &mut Progress,
    classes: &ClassTable,
    all: &[Constraint],
    targets: &[Vec<Constraint>],
    sources: &[Vec<Constraint>],
) -> Result<(), NoMemory>
    requires stands { Stands found.old }
    requires fits { Fits (length found.old.done.items) all.now classes.now }
    requires targets { AreReaders sides.Target (length found.old.done.items) all.now (constraint_lists targets.now) }
    requires sources { AreReaders sides.Source (length found.old.done.items) all.now (constraint_lists sources.now) }
    requires flowed { Flowed (done_of found.old) found.old }
    requires ruled { AreRuled classes.now all.now found.old }
    ensures { OnOk result (IsDone classes.now all.now found.old found.new) }
{
    while let Some((node, delta)) = found.next()? {
        visit(found, classes, &targets[node], &sources[node], node, &delta)?;
    }
    Ok(())
}

fn lists(alloc: Global, sets: &[Bits]) -> Result<Vec<Vec<u32>>, NoMemory>
    ensures lists { IfOk result (λ lists. lists_of lists.items ≡ sets.now) }
    ensures sets { IfOk result (λ lists. Each sets.now IsSet) }
{
    let mut lists = Vec::new(alloc);
    for set in sets {
        lists.push(set.members(alloc)?)?;
    }
    Ok(lists)
}

/// The least family of sets, one for each node, that is closed under the constraints: each member of its sets is one of every closed
/// family, and one that an address or a sub-object of the class table names. It takes no member along an edge twice.
pub fn solve(
    alloc: Global,
    nodes: u32,
    all: &[Constraint],
    classes: &ClassTable,
) -> Result<Solution, NoMemory>
    requires { Fits nodes all.now classes.now }
    ensures nodes { IfOk result (λ s. length s.sets.items ≡ nodes) }
    ensures closed { IfOk result (λ s. IsClosed classes.now all.now (family_of (lists_of s.sets.items))) }
    ensures least { IfOk result (λ s. (family : Family) → IsClosed classes.now all.now family → (node member : ℕ) → Has (family_of (lists_of s.sets.items)) node member → Has family node member) }
    ensures members { IfOk result (λ s. (test : ℕ → Bool) → NamesOnly test classes.now all.now → (node member : ℕ) → Has (family_of (lists_of s.sets.items)) node member → test member ≡ true) }
    ensures sets { IfOk result (λ s. Each (lists_of s.sets.items) IsSet) }
{
    let targets = readers(alloc, nodes, all, Side::Target)?;
    let sources = readers(alloc, nodes, all, Side::Source)?;
    let mut found = Progress::new(alloc, nodes)?;
    open_all(&mut found, classes, all)?;
    run(&mut found, classes, all, &targets, &sources)?;
    let sets = lists(alloc, &found.done)?;
    Ok(Solution { sets })
}
