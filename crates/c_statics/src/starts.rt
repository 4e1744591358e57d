use crate::constants::integer;
use crate::counts::{Count, Counts};
use crate::entries::{Entries, Found};
use crate::places::{Context, Pointer, Spot, pointer_value};
use crate::unions::Passed;
use c_classes::{NodeForm, Objects};
use c_typed::{InitialPart, Typed, TypedExpr, TypedObject};
use c_values::{convert, greatest, least};
use core_ir::{Leaf, StaticLeaf, StaticUnion, StaticValue};
use std::alloc::Global;
use sv_base::NoMemory;

/// With what static objects begin.
#[derive(Drop)]
pub struct Starts {
    /// The values that are neither zero nor null, by object and path.
    pub statics: Vec<StaticLeaf>,
    /// The unions that begin with another member than the first, by object and path.
    pub unions: Vec<StaticUnion>,
    /// By leaf class, the least and the greatest number; none where no static object has a leaf of the class.
    pub leaves: Vec<Option<(i128, i128)>>,
    /// By leaf class, the region classes and functions that are pointed to, ascending.
    pub pointers: Vec<Vec<u32>>,
}

/// Function f stands as this number and f among the members of points-to sets.
const FIRST_FUNCTION: u32 = 0x8000_0000;

// The value of a leaf: what the program lists, its number, and what it points to.
#[derive(Drop)]
struct Given {
    listed: Option<StaticValue>,
    number: i128,
    target: Option<u32>,
}

fn joined(old: Option<(i128, i128)>, low: i128, high: i128) -> Option<(i128, i128)> {
    match old {
        None => Some((low, high)),
        Some((least, greatest)) => Some((least.min(low), greatest.max(high))),
    }
}

fn given_number(number: i128) -> Given {
    let listed = if number == 0 {
        None
    } else {
        Some(StaticValue::Int(number))
    };
    Given {
        listed,
        number,
        target: None,
    }
}

fn given_function(number: u32) -> Given {
    Given {
        listed: Some(StaticValue::Function(number)),
        number: 0,
        target: Some(FIRST_FUNCTION.saturating_add(number)),
    }
}

fn given_place(objects: &Objects, spot: Spot) -> Given {
    let Spot {
        object,
        path,
        node,
        offset,
    } = spot;
    Given {
        listed: Some(StaticValue::Place {
            object: objects.whole_region(object),
            path,
            offset,
        }),
        number: offset,
        target: objects.region(node),
    }
}

// An integer that became a pointer is listed, and counts as offset 0.
fn given_wild(number: i128) -> Given {
    Given {
        listed: Some(StaticValue::Int(number)),
        number: 0,
        target: None,
    }
}

fn given_pointer(e: &TypedExpr, x: Context<'_>) -> Result<Given, NoMemory> {
    match pointer_value(e, x)? {
        Pointer::Null => Ok(given_number(0)),
        Pointer::Wild(number) => Ok(given_wild(number)),
        Pointer::Function(number) => Ok(given_function(number)),
        Pointer::Place(spot) => Ok(given_place(x.objects, spot)),
    }
}

fn value_given(e: &TypedExpr, leaf: Leaf, x: Context<'_>) -> Result<Given, NoMemory> {
    match leaf {
        Leaf::Pointer => given_pointer(e, x),
        Leaf::Int(kind) => {
            let number = integer(e, x.types).unwrap_or(0);
            Ok(given_number(convert(kind, number)))
        }
    }
}

impl Starts {
    fn new(alloc: Global, leaves: usize) -> Result<Starts, NoMemory> {
        let mut starts = Starts {
            statics: Vec::new(alloc),
            unions: Vec::new(alloc),
            leaves: Vec::new(alloc),
            pointers: Vec::new(alloc),
        };
        for _ in 0..leaves {
            starts.leaves.push(None)?;
            starts.pointers.push(Vec::new(alloc))?;
        }
        Ok(starts)
    }

    fn put(&mut self, class: u32, low: i128, high: i128) {
        if let Some(start) = self.leaves.get_mut(class as usize) {
            *start = joined(*start, low, high);
        }
    }

    fn point(&mut self, class: u32, target: Option<u32>) -> Result<(), NoMemory> {
        if let Some(target) = target {
            if let Some(targets) = self.pointers.get_mut(class as usize) {
                let targets: &mut Vec<u32> = targets;
                targets.push(target)?;
            }
        }
        Ok(())
    }

    // A part that stands in the end gives a leaf its value.
    fn give(
        &mut self,
        x: Context<'_>,
        whole: u32,
        part: &InitialPart,
        node: u32,
    ) -> Result<(), NoMemory> {
        let Some(of) = x.objects.node(node) else {
            return Ok(());
        };
        let NodeForm::Scalar(leaf) = of.form else {
            return Ok(());
        };
        let class = of.leaves.first;
        let Given {
            listed,
            number,
            target,
        } = value_given(&part.value, leaf, x)?;
        self.put(class, number, number);
        self.point(class, target)?;
        if let Some(value) = listed {
            let path = Vec::from_slice(x.alloc, part.path.as_slice())?;
            self.statics.push(StaticLeaf {
                object: whole,
                path,
                value,
            })?;
        }
        Ok(())
    }

    // The parts of an object that stand in the end.
    fn give_all(
        &mut self,
        x: Context<'_>,
        whole: u32,
        parts: &[InitialPart],
        entries: &mut Entries,
        counts: &mut Counts,
    ) -> Result<(), NoMemory> {
        for number in 0..entries.found.len() {
            let Some(found) = entries.standing(number) else {
                continue;
            };
            let Some(part) = entries.part(parts, number) else {
                continue;
            };
            self.give(x, whole, part, found.node)?;
            counts.give(found.node);
            entries.choose(found);
        }
        Ok(())
    }

    // A union of which a part chooses a member.
    fn choose(
        &mut self,
        x: Context<'_>,
        whole: u32,
        entries: &Entries,
        counts: &mut Counts,
        union: Passed,
    ) -> Result<(), NoMemory> {
        let Some(last) = union.last else {
            return Ok(());
        };
        if let Some(node) = x.objects.node(union.node) {
            if let Some(kid) = x.objects.kid(node, last.member) {
                counts.choose(union.node, kid);
            }
        }
        if last.member != 0 {
            self.unions.push(StaticUnion {
                object: whole,
                path: entries.path_to(x.alloc, union)?,
                member: last.member,
            })?;
        }
        Ok(())
    }

    fn choose_all(
        &mut self,
        x: Context<'_>,
        whole: u32,
        entries: &Entries,
        counts: &mut Counts,
    ) -> Result<(), NoMemory> {
        for union in &entries.unions.list {
            if union.is_chosen {
                self.choose(x, whole, entries, counts, *union)?;
            }
        }
        Ok(())
    }

    // What a leaf begins with where no part gives it a value: zero or null, or anything where its union begins otherwise.
    fn leave(&mut self, class: u32, leaf: Leaf, count: Count) {
        if count.given < count.begun {
            self.put(class, 0, 0);
        }
        if count.begun < count.all {
            match leaf {
                Leaf::Pointer => self.put(class, 0, 0),
                Leaf::Int(kind) => self.put(class, least(kind), greatest(kind)),
            }
        }
    }

    fn leave_all(&mut self, objects: &Objects, root: u32, counts: &Counts) {
        let Some(whole) = objects.node(root) else {
            return;
        };
        for number in root..whole.end {
            if let (Some(node), Some(count)) = (objects.node(number), counts.at(number)) {
                if let NodeForm::Scalar(leaf) = node.form {
                    self.leave(node.leaves.first, leaf, count);
                }
            }
        }
    }

    fn add(&mut self, x: Context<'_>, root: u32, object: &TypedObject) -> Result<(), NoMemory> {
        let parts: &[InitialPart] = match &object.initial {
            None => &[],
            Some(parts) => parts.as_slice(),
        };
        let whole = x.objects.region(root).unwrap_or(0);
        let mut entries = Entries::new(x.alloc, x.objects, root, parts)?;
        let mut counts = Counts::new(x.alloc, x.objects, root)?;
        self.give_all(x, whole, parts, &mut entries, &mut counts)?;
        self.choose_all(x, whole, &entries, &mut counts)?;
        counts.complete(x.objects);
        self.leave_all(x.objects, root, &counts);
        Ok(())
    }

    fn sort_targets(&mut self) -> Result<(), NoMemory> {
        for targets in self.pointers.iter_mut() {
            targets.sort()?;
            targets.dedup();
        }
        Ok(())
    }
}

/// With what the static objects of a program begin. They are the first ones of `objects`.
pub fn starts_of(alloc: Global, typed: &Typed, objects: &Objects) -> Result<Starts, NoMemory> {
    let x = Context {
        alloc,
        types: &typed.types,
        objects,
    };
    let mut starts = Starts::new(alloc, objects.leaves.len())?;
    let mut number = 0u32;
    for object in &typed.statics {
        if let Some(root) = objects.root(number) {
            starts.add(x, root, object)?;
        }
        number = number.checked_add(1).ok_or(NoMemory)?;
    }
    starts.sort_targets()?;
    Ok(starts)
}
