//! What an initialiser leaves out is stored as zero or null (ISO/IEC 9899:1999, 6.7.8), of a union the first member or the one that is
//! set. The walk goes over a list of what is left, since types may stand inside one another as deep as a source is long.

use crate::code::Code;
use crate::context::{Context, NOTHING, leaf_of, members_of};
use crate::initial::{store_at, type_inside};
use c_statics::{Entry, sorted_entries};
use c_tree::RecordKind;
use c_typed::{InitialPart, TypeId, TypeKind};
use core_ir::{Leaf, Value};
use std::alloc::Global;
use sv_base::{FrontFault, NoMemory};

// A sub-object at a path with so many steps, of which `step` is the last, and the entries whose paths begin with it.
#[derive(Clone, Copy)]
struct Visit {
    of: TypeId,
    step: Option<u32>,
    depth: usize,
    first: usize,
    end: usize,
}

// What is left to be done: a sub-object, or one from its element or member of this number on.
#[derive(Clone, Copy)]
enum Todo {
    Whole(Visit),
    From { next: u32, visit: Visit },
}

// The step of an entry's path behind so many steps.
fn step_of(entries: &[Entry], place: usize, depth: usize) -> Option<u32> {
    let entry = entries.get(place)?;
    entry.path.get(depth).copied()
}

// Whether an entry gives the sub-object itself.
fn is_given(entries: &[Entry], visit: Visit) -> bool {
    if visit.first >= visit.end {
        return false;
    }
    match entries.get(visit.first) {
        None => false,
        Some(entry) => entry.path.len() == visit.depth,
    }
}

// Behind the entries, from the first one on, that take this step.
fn end_of_step(entries: &[Entry], visit: Visit, step: u32) -> usize {
    let mut end = visit.first;
    for place in visit.first..visit.end {
        if step_of(entries, place, visit.depth) != Some(step) {
            break;
        }
        end = place.saturating_add(1);
    }
    end
}

// The member of a union that is set last.
fn member_set(entries: &[Entry], visit: Visit) -> u32 {
    let mut last = None;
    let mut member = 0;
    for place in visit.first..visit.end {
        if let (Some(entry), Some(step)) = (
            entries.get(place),
            step_of(entries, place, visit.depth),
        ) {
            if last.is_none() || last < Some(entry.at) {
                last = Some(entry.at);
                member = step;
            }
        }
    }
    member
}

// A part of a sub-object, with the entries that take this step.
fn inside(x: Context<'_>, entries: &[Entry], visit: Visit, step: u32) -> Visit {
    Visit {
        of: type_inside(x, visit.of, step),
        step: Some(step),
        depth: visit.depth.saturating_add(1),
        first: visit.first,
        end: end_of_step(entries, visit, step),
    }
}

// The entries behind those of a part.
fn behind(visit: Visit, end: usize) -> Visit {
    let mut next = visit;
    next.first = end;
    next
}

// The member of a union that is set, with its entries.
fn member_visit(x: Context<'_>, entries: &[Entry], visit: Visit) -> Visit {
    let member = member_set(entries, visit);
    let mut from = visit;
    for place in visit.first..visit.end {
        if step_of(entries, place, visit.depth) == Some(member) {
            break;
        }
        from = behind(visit, place.saturating_add(1));
    }
    inside(x, entries, from, member)
}

// How many elements or members a type has, where they are visited one after another.
fn part_count(x: Context<'_>, of: TypeId) -> u64 {
    match x.types().kind(of) {
        TypeKind::Array(_, count) => count.unwrap_or(0),
        TypeKind::Record(record) => members_of(x.types(), record).len() as u64,
        _ => 0,
    }
}

fn is_union(x: Context<'_>, of: TypeId) -> bool {
    match x.types().kind(of) {
        TypeKind::Record(number) => match x.types().record(number) {
            None => false,
            Some(record) => record.kind == RecordKind::Union,
        },
        _ => false,
    }
}

// The walk over one object.
#[derive(Drop)]
struct Walk {
    object: u32,
    whole: TypeId,
    entries: Vec<Entry>,
    path: Vec<u32>,
    left: Vec<Todo>,
}

impl Walk {
    // The path of a sub-object.
    fn go_to(&mut self, visit: Visit) -> Result<(), NoMemory> {
        if let Some(step) = visit.step {
            self.path.truncate(visit.depth.saturating_sub(1));
            self.path.push(step)?;
        }
        Ok(())
    }

    fn visit(&mut self, x: Context<'_>, c: &mut Code, visit: Visit) -> Result<(), FrontFault> {
        self.go_to(visit)?;
        if is_given(&self.entries, visit) {
            return Ok(());
        }
        match x.types().kind(visit.of) {
            TypeKind::Array(_, _) => {
                self.left.push(Todo::From { next: 0, visit })?;
                Ok(())
            }
            TypeKind::Record(_) => {
                if is_union(x, visit.of) {
                    let member = member_visit(x, &self.entries, visit);
                    self.left.push(Todo::Whole(member))?;
                } else {
                    self.left.push(Todo::From { next: 0, visit })?;
                }
                Ok(())
            }
            _ => self.store_zero(x, c, visit.of),
        }
    }

    fn store_zero(&mut self, x: Context<'_>, c: &mut Code, of: TypeId) -> Result<(), FrontFault> {
        let leaf = leaf_of(x.types(), of);
        let operand = match leaf {
            Leaf::Int(_) => NOTHING,
            Leaf::Pointer => c.put(Leaf::Pointer, Value::Null)?,
        };
        store_at(x, c, self.object, self.whole, &self.path, operand, leaf)
    }

    // One element or member, and then those behind it.
    fn go_on(&mut self, x: Context<'_>, next: u32, visit: Visit) -> Result<(), NoMemory> {
        if u64::from(next) >= part_count(x, visit.of) {
            return Ok(());
        }
        let part = inside(x, &self.entries, visit, next);
        let rest = behind(visit, part.end);
        self.left.push(Todo::From {
            next: next.checked_add(1).ok_or(NoMemory)?,
            visit: rest,
        })?;
        self.left.push(Todo::Whole(part))?;
        Ok(())
    }

    fn run(&mut self, x: Context<'_>, c: &mut Code) -> Result<(), FrontFault> {
        for _ in 0..u64::MAX {
            match self.left.pop() {
                None => break,
                Some(Todo::Whole(visit)) => self.visit(x, c, visit)?,
                Some(Todo::From { next, visit }) => self.go_on(x, next, visit)?,
            }
        }
        Ok(())
    }
}

/// Stores what the parts leave out of an object.
pub(crate) fn store_rest(
    x: Context<'_>,
    c: &mut Code,
    object: u32,
    of: TypeId,
    parts: &[InitialPart],
) -> Result<(), FrontFault> {
    let entries = sorted_entries(x.alloc, parts)?;
    let end = entries.len();
    let mut walk = Walk {
        object,
        whole: of,
        entries,
        path: Vec::new(x.alloc),
        left: Vec::new(x.alloc),
    };
    walk.left.push(Todo::Whole(Visit {
        of,
        step: None,
        depth: 0,
        first: 0,
        end,
    }))?;
    walk.run(x, c)
}
