use crate::counts::{Count, Counts};
use crate::places::{Along, Objects};
use crate::values::{Range, any_number, value_given};
use core_ir::{CoreProgram, Leaf, StaticLeaf, StaticUnion};
use objects_fit::leaf_of;
use std::alloc::Global;
use sv_base::NoMemory;

/// A leaf class, and a region class or function to which a listed value lets it point.
#[derive(Clone, Copy, PartialEq, Eq, PartialOrd, Ord)]
struct Aim {
    class: u32,
    target: u32,
}

/// With what the leaves of static objects begin.
#[derive(Drop)]
struct Starts {
    /// By leaf class, the least and the greatest number.
    ranges: Vec<Option<Range>>,
    aims: Vec<Aim>,
    counts: Counts,
    along: Along,
}

fn joined(old: Option<Range>, more: Range) -> Option<Range> {
    match old {
        None => Some(more),
        Some((low, high)) => Some((low.min(more.0), high.max(more.1))),
    }
}

// Whether what is listed of a union comes before what is listed of a leaf.
fn comes_first(union: &StaticUnion, leaf: &StaticLeaf) -> bool {
    if union.object != leaf.object {
        return union.object < leaf.object;
    }
    let mut steps = leaf.path.iter();
    for own in &union.path {
        match steps.next() {
            None => return false,
            Some(other) => {
                if *own != *other {
                    return *own < *other;
                }
            }
        }
    }
    true
}

// Whether a list has what a class points to, which comes next. The answer is what comes after it.
fn without_class<'a>(aims: &'a [Aim], class: u32, list: &[u32]) -> Option<&'a [Aim]> {
    let mut rest = aims;
    for target in list {
        match rest.split_first() {
            Some((first, others)) if first.class == class && first.target == *target => {
                rest = others
            }
            _ => return None,
        }
    }
    Some(rest)
}

fn is_range(one: Option<Range>, other: Option<Range>) -> bool {
    match (one, other) {
        (None, None) => true,
        (Some(a), Some(b)) => a.0 == b.0 && a.1 == b.1,
        _ => false,
    }
}

fn are_ranges(ranges: &[Option<Range>], listed: &[Option<Range>]) -> bool {
    let mut others = listed.iter();
    for range in ranges {
        match others.next() {
            None => return false,
            Some(other) => {
                if !is_range(*range, *other) {
                    return false;
                }
            }
        }
    }
    others.next().is_none()
}

impl Starts {
    fn new(alloc: Global, objects: Objects<'_>) -> Result<Starts, NoMemory> {
        let mut ranges: Vec<Option<Range>> = Vec::new(alloc);
        for _ in &objects.nodes.leaves {
            ranges.push(None)?;
        }
        Ok(Starts {
            ranges,
            aims: Vec::new(alloc),
            counts: Counts::new(alloc, objects.nodes)?,
            along: Along::new(alloc),
        })
    }

    fn put(&mut self, class: u32, range: Range) {
        if let Some(start) = self.ranges.get_mut(class as usize) {
            *start = joined(*start, range);
        }
    }

    // A union of which a member is listed.
    fn add_union(&mut self, objects: Objects<'_>, union: &StaticUnion) -> Result<bool, NoMemory> {
        if !self.along.go_to(objects, union.object, &union.path)? {
            return Ok(false);
        }
        let Some(last) = self.along.last() else {
            return Ok(false);
        };
        if !objects.is_union(last.node) {
            return Ok(false);
        }
        let Some(member) = objects.inner(last.node, union.member) else {
            return Ok(false);
        };
        self.along.choose(union.member);
        if last.is_begun {
            self.counts.choose(last.node, member);
        }
        Ok(true)
    }

    // A leaf of which a value is listed.
    fn add_leaf(
        &mut self,
        core: &CoreProgram,
        objects: Objects<'_>,
        listed: &StaticLeaf,
    ) -> Result<bool, NoMemory> {
        if !self.along.go_to(objects, listed.object, &listed.path)? {
            return Ok(false);
        }
        let Some(last) = self.along.last() else {
            return Ok(false);
        };
        let Some(node) = objects.nodes.node(last.node) else {
            return Ok(false);
        };
        let Some(leaf) = leaf_of(node) else {
            return Ok(false);
        };
        let Some(value) = value_given(core, objects, leaf, &listed.value) else {
            return Ok(false);
        };
        let class = node.leaves.first;
        if let Some(target) = value.target {
            self.aims.push(Aim { class, target })?;
        }
        if last.is_begun {
            self.counts.give(last.node);
            self.put(class, (value.number, value.number));
        }
        Ok(true)
    }

    // All that is listed, unions before what is in them. False where it does not fit.
    fn add_all(&mut self, core: &CoreProgram, objects: Objects<'_>) -> Result<bool, NoMemory> {
        let mut unions: &[StaticUnion] = &core.unions;
        for listed in &core.statics {
            match self.add_unions(objects, unions, Some(listed))? {
                None => return Ok(false),
                Some(rest) => unions = rest,
            }
            if !self.add_leaf(core, objects, listed)? {
                return Ok(false);
            }
        }
        let rest = self.add_unions(objects, unions, None)?;
        Ok(rest.is_some())
    }

    // The unions that come before a leaf, of which the answer are the other ones. None where one does not fit.
    fn add_unions<'a>(
        &mut self,
        objects: Objects<'_>,
        unions: &'a [StaticUnion],
        before: Option<&StaticLeaf>,
    ) -> Result<Option<&'a [StaticUnion]>, NoMemory> {
        let mut rest = unions;
        while let Some((union, others)) = rest.split_first() {
            if let Some(leaf) = before {
                if !comes_first(union, leaf) {
                    return Ok(Some(rest));
                }
            }
            if !self.add_union(objects, union)? {
                return Ok(None);
            }
            rest = others;
        }
        Ok(Some(rest))
    }

    // What a leaf begins with where no value is listed: zero or null, or anything where its union begins otherwise.
    fn leave(&mut self, class: u32, leaf: Leaf, count: Count) {
        if count.given < count.begun {
            self.put(class, (0, 0));
        }
        if count.begun < count.all {
            self.put(class, any_number(leaf));
        }
    }

    // The leaves of one object.
    fn leave_object(&mut self, objects: Objects<'_>, root: u32) {
        let Some(whole) = objects.nodes.node(root) else {
            return;
        };
        for class in whole.leaves.first..whole.leaves.end {
            let Some(number) = objects.nodes.leaves.get(class as usize).copied() else {
                return;
            };
            if let (Some(node), Some(count)) = (
                objects.nodes.node(number),
                self.counts.at(number),
            ) {
                if let Some(leaf) = leaf_of(node) {
                    self.leave(class, leaf, count);
                }
            }
        }
    }

    // The leaves of all static objects.
    fn leave_all(&mut self, objects: Objects<'_>) {
        let mut class = 0u32;
        for _ in &objects.nodes.regions {
            if let Some(root) = objects.static_root(class) {
                self.leave_object(objects, root);
            }
            class = class.saturating_add(1);
        }
    }

    // Whether lists by class have what is pointed to, ascending.
    fn are_targets(&mut self, listed: &[Vec<u32>]) -> Result<bool, NoMemory> {
        self.aims.sort()?;
        self.aims.dedup();
        let mut rest: &[Aim] = &self.aims;
        let mut class = 0u32;
        for list in listed {
            match without_class(rest, class, list) {
                None => return Ok(false),
                Some(others) => rest = others,
            }
            class = class.checked_add(1).ok_or(NoMemory)?;
        }
        Ok(rest.is_empty() && listed.len() == self.ranges.len())
    }
}

/// Whether the listed values and members of unions fit, and what is said of the leaf classes is what they begin with.
pub(crate) fn starts_fit(
    alloc: Global,
    core: &CoreProgram,
    objects: Objects<'_>,
) -> Result<bool, NoMemory> {
    let mut starts = Starts::new(alloc, objects)?;
    if !starts.add_all(core, objects)? || !starts.counts.complete(objects.nodes) {
        return Ok(false);
    }
    starts.leave_all(objects);
    Ok(are_ranges(&starts.ranges, &core.leaf_starts) && starts.are_targets(&core.pointer_starts)?)
}
