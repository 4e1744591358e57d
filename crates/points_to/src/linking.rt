//! Edges and members that a constraint demands for one or two members of its sets.
ghost use Rattle.std.specs.Prelude.{◌≡◌, ◌<◌, length, OnOk};
ghost use Rattle.points_to.specs.computed.RuleParts.{Each, Then, TakesLeaves, GivesLeaves, TakesParts, TakesLike, TakesLayouts, TakesObject, TakesObjects};
ghost use Rattle.points_to.specs.Fits.{IsTableWithin};
ghost use Rattle.points_to.specs.computed.Progress.{Stands, IsMet};

use crate::progress::Progress;
use crate::table;
use core_ir::{ClassTable, LayoutPart, PartClass};
use sv_base::NoMemory;

/// Adds an edge between two nodes, where both are there.
pub(crate) fn link_found(
    found: &mut Progress,
    from: Option<usize>,
    to: Option<usize>,
) -> Result<(), NoMemory>
    requires stands { Stands found.old }
    requires from { Then from (λ node. node < length found.old.done.items) }
    requires to { Then to (λ node. node < length found.old.done.items) }
    ensures { OnOk result (IsMet (λ flows gets. Then to (λ t. Then from (λ f. flows f t))) found.old found.new) }
{
    match (from, to) {
        (Some(from), Some(to)) => return found.link(from, to),
        (Some(_), None) | (None, _) => return Ok(()),
    }
}

/// Edges from each pointer in a region class to a node.
pub(crate) fn take_leaves(
    found: &mut Progress,
    classes: &ClassTable,
    member: u32,
    to: usize,
) -> Result<(), NoMemory>
    requires stands { Stands found.old }
    requires table { IsTableWithin (length found.old.done.items) classes.now }
    requires to { to < length found.old.done.items }
    ensures { OnOk result (IsMet (λ flows gets. TakesLeaves classes.now flows member to) found.old found.new) }
{
    for leaf in table::leaves(classes, member) {
        link_found(found, table::pointer(classes, *leaf), Some(to))?;
    }
    Ok(())
}

/// Edges from a node to each pointer in a region class.
pub(crate) fn give_leaves(
    found: &mut Progress,
    classes: &ClassTable,
    from: usize,
    member: u32,
) -> Result<(), NoMemory>
    requires stands { Stands found.old }
    requires table { IsTableWithin (length found.old.done.items) classes.now }
    requires from { from < length found.old.done.items }
    ensures { OnOk result (IsMet (λ flows gets. GivesLeaves classes.now flows from member) found.old found.new) }
{
    for leaf in table::leaves(classes, member) {
        link_found(found, Some(from), table::pointer(classes, *leaf))?;
    }
    Ok(())
}

fn take_part(found: &mut Progress, number: u32, part: PartClass, to: usize) -> Result<(), NoMemory>
    requires stands { Stands found.old }
    requires to { to < length found.old.done.items }
    ensures { OnOk result (IsMet (λ flows gets. part.part ≡ number → gets to part.«class») found.old found.new) }
{
    if part.part != number {
        return Ok(());
    }
    found.add(to, part.class)
}

/// Adds to a node each sub-object of this number in a region class.
pub(crate) fn take_parts(
    found: &mut Progress,
    classes: &ClassTable,
    number: u32,
    member: u32,
    to: usize,
) -> Result<(), NoMemory>
    requires stands { Stands found.old }
    requires to { to < length found.old.done.items }
    ensures { OnOk result (IsMet (λ flows gets. TakesParts classes.now gets number member to) found.old found.new) }
{
    for part in table::parts(classes, member) {
        take_part(found, number, *part, to)?;
    }
    Ok(())
}

fn take_like(
    found: &mut Progress,
    classes: &ClassTable,
    targets: &[u32],
    sources: &[u32],
) -> Result<(), NoMemory>
    requires stands { Stands found.old }
    requires table { IsTableWithin (length found.old.done.items) classes.now }
    ensures { OnOk result (IsMet (λ flows gets. TakesLike classes.now flows targets.now sources.now) found.old found.new) }
{
    for place in 0..targets.len().min(sources.len()) {
        let from = table::pointer(classes, sources[place]);
        let to = table::pointer(classes, targets[place]);
        link_found(found, from, to)?;
    }
    Ok(())
}

fn take_layout(
    found: &mut Progress,
    classes: &ClassTable,
    layout: u32,
    target: &LayoutPart,
    sources: &[u32],
) -> Result<(), NoMemory>
    requires stands { Stands found.old }
    requires table { IsTableWithin (length found.old.done.items) classes.now }
    ensures { OnOk result (IsMet (λ flows gets. target.now.layout ≡ layout → TakesLike classes.now flows target.now.leaves.items sources.now) found.old found.new) }
{
    if target.layout != layout {
        return Ok(());
    }
    take_like(found, classes, &target.leaves, sources)
}

fn take_layouts(
    found: &mut Progress,
    classes: &ClassTable,
    layout: u32,
    targets: &[LayoutPart],
    sources: &[u32],
) -> Result<(), NoMemory>
    requires stands { Stands found.old }
    requires table { IsTableWithin (length found.old.done.items) classes.now }
    ensures { OnOk result (IsMet (λ flows gets. TakesLayouts classes.now flows layout targets.now sources.now) found.old found.new) }
{
    for target in targets {
        take_layout(found, classes, layout, target, sources)?;
    }
    Ok(())
}

fn take_source(
    found: &mut Progress,
    classes: &ClassTable,
    layout: u32,
    targets: &[LayoutPart],
    source: &LayoutPart,
) -> Result<(), NoMemory>
    requires stands { Stands found.old }
    requires table { IsTableWithin (length found.old.done.items) classes.now }
    ensures { OnOk result (IsMet (λ flows gets. source.now.layout ≡ layout → TakesLayouts classes.now flows layout targets.now source.now.leaves.items) found.old found.new) }
{
    if source.layout != layout {
        return Ok(());
    }
    take_layouts(found, classes, layout, targets, &source.leaves)
}

fn take_object(
    found: &mut Progress,
    classes: &ClassTable,
    layout: u32,
    target: u32,
    source: u32,
) -> Result<(), NoMemory>
    requires stands { Stands found.old }
    requires table { IsTableWithin (length found.old.done.items) classes.now }
    ensures { OnOk result (IsMet (λ flows gets. TakesObject classes.now flows layout target source) found.old found.new) }
{
    let targets = table::layouts(classes, target);
    for part in table::layouts(classes, source) {
        take_source(found, classes, layout, targets, part)?;
    }
    Ok(())
}

/// Edges for a copy of objects of a type from each of these region classes to one.
pub(crate) fn take_objects(
    found: &mut Progress,
    classes: &ClassTable,
    layout: u32,
    target: u32,
    sources: &[u32],
) -> Result<(), NoMemory>
    requires stands { Stands found.old }
    requires table { IsTableWithin (length found.old.done.items) classes.now }
    ensures { OnOk result (IsMet (λ flows gets. TakesObjects classes.now flows layout target sources.now) found.old found.new) }
{
    for source in sources {
        take_object(found, classes, layout, target, *source)?;
    }
    Ok(())
}

/// Edges for a copy of objects of a type to each of these region classes from one.
pub(crate) fn give_objects(
    found: &mut Progress,
    classes: &ClassTable,
    layout: u32,
    targets: &[u32],
    source: u32,
) -> Result<(), NoMemory>
    requires stands { Stands found.old }
    requires table { IsTableWithin (length found.old.done.items) classes.now }
    ensures { OnOk result (IsMet (λ flows gets. Each targets.now (λ target. TakesObject classes.now flows layout target source)) found.old found.new) }
{
    for target in targets {
        take_object(found, classes, layout, *target, source)?;
    }
    Ok(())
}
