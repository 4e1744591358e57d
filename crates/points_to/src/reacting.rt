//! What constraints demand for members that come to the sets that they read.
ghost use Rattle.std.specs.Prelude.{◌≡◌, ◌<◌, true, length, OnOk, ℕ};
ghost use Rattle.points_to.specs.Sets.{has};
ghost use Rattle.points_to.specs.Families.{Has};
ghost use Rattle.points_to.specs.Rules.{Demands, rule_of};
ghost use Rattle.points_to.specs.computed.RuleParts.{Each, TakesObject, TakesObjects};
ghost use Rattle.points_to.specs.Fits.{IsTableWithin, IsConstraintWithin};
ghost use Rattle.points_to.specs.computed.Progress.{Stands, IsMet, done_of};
ghost use Rattle.points_to.specs.computed.Readers.{reads_target, reads_source};

use crate::progress::Progress;
use crate::rule::Rule;
use crate::{linking, rule, table};
use core_ir::{ClassTable, Constraint};
use sv_base::NoMemory;

// A copy of objects, for one member of its target's set.
fn copy_to(
    found: &mut Progress,
    classes: &ClassTable,
    constraint: Constraint,
    member: u32,
) -> Result<(), NoMemory>
    requires stands { Stands found.old }
    requires table { IsTableWithin (length found.old.done.items) classes.now }
    requires source { constraint.source < length found.old.done.items }
    ensures { OnOk result (IsMet (λ flows gets. (y : ℕ) → Has (done_of found.old) constraint.source y → TakesObject classes.now flows constraint.third member y) found.old found.new) }
{
    let alloc = *found.done.allocator();
    let sources = found.done[constraint.source as usize].members(alloc)?;
    linking::take_objects(found, classes, constraint.third, member, &sources)
}

// A copy of objects, for one member of its source's set.
fn copy_from(
    found: &mut Progress,
    classes: &ClassTable,
    constraint: Constraint,
    member: u32,
) -> Result<(), NoMemory>
    requires stands { Stands found.old }
    requires table { IsTableWithin (length found.old.done.items) classes.now }
    requires target { constraint.target < length found.old.done.items }
    ensures { OnOk result (IsMet (λ flows gets. (x : ℕ) → Has (done_of found.old) constraint.target x → TakesObject classes.now flows constraint.third x member) found.old found.new) }
{
    let alloc = *found.done.allocator();
    let targets = found.done[constraint.target as usize].members(alloc)?;
    linking::give_objects(found, classes, constraint.third, &targets, member)
}

fn react_to_target(
    found: &mut Progress,
    classes: &ClassTable,
    constraint: Constraint,
    member: u32,
) -> Result<(), NoMemory>
    requires stands { Stands found.old }
    requires within { IsConstraintWithin (length found.old.done.items) classes.now constraint }
    requires reads { reads_target (rule_of constraint.rule) ≡ true }
    ensures { OnOk result (IsMet (Demands classes.now (rule_of constraint.rule) constraint (λ x. x ≡ member) (Has (done_of found.old) constraint.source)) found.old found.new) }
{
    match rule::rule_of(constraint.rule) {
        Rule::Store => {
            return linking::give_leaves(found, classes, constraint.source as usize, member);
        }
        Rule::ObjectCopy => return copy_to(found, classes, constraint, member),
        Rule::Argument => {
            let entry = table::entry(classes, member, constraint.third);
            return linking::link_found(found, Some(constraint.source as usize), entry);
        }
        _ => return Ok(()),
    }
}

fn react_to_source(
    found: &mut Progress,
    classes: &ClassTable,
    constraint: Constraint,
    member: u32,
) -> Result<(), NoMemory>
    requires stands { Stands found.old }
    requires within { IsConstraintWithin (length found.old.done.items) classes.now constraint }
    requires reads { reads_source (rule_of constraint.rule) ≡ true }
    ensures { OnOk result (IsMet (Demands classes.now (rule_of constraint.rule) constraint (Has (done_of found.old) constraint.target) (λ y. y ≡ member)) found.old found.new) }
{
    let to = constraint.target as usize;
    match rule::rule_of(constraint.rule) {
        Rule::Load => return linking::take_leaves(found, classes, member, to),
        Rule::SubObject => {
            return linking::take_parts(found, classes, constraint.third, member, to);
        }
        Rule::ObjectCopy => return copy_from(found, classes, constraint, member),
        Rule::Result => {
            return linking::link_found(found, table::outcome(classes, member), Some(to));
        }
        _ => return Ok(()),
    }
}

fn meet_target(
    found: &mut Progress,
    classes: &ClassTable,
    constraint: Constraint,
    members: &[u32],
) -> Result<(), NoMemory>
    requires stands { Stands found.old }
    requires within { IsConstraintWithin (length found.old.done.items) classes.now constraint }
    requires reads { reads_target (rule_of constraint.rule) ≡ true }
    ensures { OnOk result (IsMet (Demands classes.now (rule_of constraint.rule) constraint (λ x. has members.now x ≡ true) (Has (done_of found.old) constraint.source)) found.old found.new) }
{
    for member in members {
        react_to_target(found, classes, constraint, *member)?;
    }
    Ok(())
}

fn meet_source(
    found: &mut Progress,
    classes: &ClassTable,
    constraint: Constraint,
    members: &[u32],
) -> Result<(), NoMemory>
    requires stands { Stands found.old }
    requires within { IsConstraintWithin (length found.old.done.items) classes.now constraint }
    requires reads { reads_source (rule_of constraint.rule) ≡ true }
    ensures { OnOk result (IsMet (Demands classes.now (rule_of constraint.rule) constraint (Has (done_of found.old) constraint.target) (λ y. has members.now y ≡ true)) found.old found.new) }
{
    for member in members {
        react_to_source(found, classes, constraint, *member)?;
    }
    Ok(())
}

/// Meets constraints for these members of their target's set.
pub(crate) fn meet_targets(
    found: &mut Progress,
    classes: &ClassTable,
    constraints: &[Constraint],
    members: &[u32],
) -> Result<(), NoMemory>
    requires stands { Stands found.old }
    requires within { Each constraints.now (IsConstraintWithin (length found.old.done.items) classes.now) }
    requires reads { Each constraints.now (λ c. reads_target (rule_of c.rule) ≡ true) }
    ensures { OnOk result (IsMet (λ flows gets. Each constraints.now (λ c. Demands classes.now (rule_of c.rule) c (λ x. has members.now x ≡ true) (Has (done_of found.old) c.source) flows gets)) found.old found.new) }
{
    for constraint in constraints {
        meet_target(found, classes, *constraint, members)?;
    }
    Ok(())
}

/// Meets constraints for these members of their source's set.
pub(crate) fn meet_sources(
    found: &mut Progress,
    classes: &ClassTable,
    constraints: &[Constraint],
    members: &[u32],
) -> Result<(), NoMemory>
    requires stands { Stands found.old }
    requires within { Each constraints.now (IsConstraintWithin (length found.old.done.items) classes.now) }
    requires reads { Each constraints.now (λ c. reads_source (rule_of c.rule) ≡ true) }
    ensures { OnOk result (IsMet (λ flows gets. Each constraints.now (λ c. Demands classes.now (rule_of c.rule) c (Has (done_of found.old) c.target) (λ y. has members.now y ≡ true) flows gets)) found.old found.new) }
{
    for constraint in constraints {
        meet_source(found, classes, *constraint, members)?;
    }
    Ok(())
}
