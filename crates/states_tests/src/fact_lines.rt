// Facts, line by line.

use crate::commands::{register, word};
use c_values::IntType;
use core_ir::{Bounds, CalleePart, ClassPart, Facts, LayoutPart, Leaf, LeafPart, WritePart};
use std::alloc::Global;
use sv_base::NoMemory;

fn int_type(word: &str) -> Option<IntType> {
    match word.as_bytes() {
        b"bool" => Some(IntType::Bool),
        b"char" => Some(IntType::Char),
        b"schar" => Some(IntType::SChar),
        b"uchar" => Some(IntType::UChar),
        b"short" => Some(IntType::Short),
        b"ushort" => Some(IntType::UShort),
        b"int" => Some(IntType::Int),
        b"uint" => Some(IntType::UInt),
        b"long" => Some(IntType::Long),
        b"ulong" => Some(IntType::ULong),
        b"longlong" => Some(IntType::LongLong),
        b"ulonglong" => Some(IntType::ULongLong),
        _ => None,
    }
}

pub(crate) fn leaf(word: &str) -> Option<Leaf> {
    match int_type(word) {
        Some(t) => Some(Leaf::Int(t)),
        None => Some(Leaf::Pointer),
    }
}

pub(crate) fn type_at(line: &str, at: usize) -> Option<IntType> {
    int_type(word(line, at)?)
}

pub(crate) fn leaf_at(line: &str, at: usize) -> Option<Leaf> {
    leaf(word(line, at)?)
}

pub(crate) fn no_facts(alloc: Global, rising: bool) -> Facts {
    Facts {
        sets: Vec::new(alloc),
        callees: Vec::new(alloc),
        leaves: Vec::new(alloc),
        classes: Vec::new(alloc),
        rising,
    }
}

// The numbers of a line from a place on; what is no number is left out.
fn numbers(alloc: Global, line: &str, from: usize) -> Result<Vec<u32>, NoMemory> {
    let mut list = Vec::new(alloc);
    for word in line.split_whitespace().skip(from) {
        if let Ok(number) = word.parse() {
            list.push(number)?;
        }
    }
    Ok(list)
}

fn entries(alloc: Global, line: &str) -> Result<Vec<Option<i128>>, NoMemory> {
    let mut list = Vec::new(alloc);
    for word in line.split_whitespace().skip(2) {
        list.push(word.parse().ok())?;
    }
    Ok(list)
}

fn rival(word: &str) -> Option<(u32, Leaf)> {
    let (class, kind) = word.split_once(':')?;
    Some((class.parse().ok()?, leaf(kind)?))
}

fn rivals(alloc: Global, line: &str) -> Result<Vec<(u32, Leaf)>, NoMemory> {
    let mut list = Vec::new(alloc);
    for word in line.split_whitespace().skip(3) {
        if let Some(rival) = rival(word) {
            list.push(rival)?;
        }
    }
    Ok(list)
}

fn write_part(line: &str) -> Option<WritePart> {
    Some(WritePart {
        class: register(line, 1)?,
        low: word(line, 2)?.parse().ok()?,
        high: word(line, 3)?.parse().ok()?,
    })
}

fn is_external(line: &str) -> bool {
    match word(line, 3).unwrap_or("").as_bytes() {
        b"external" => true,
        _ => false,
    }
}

fn callee(alloc: Global, line: &str) -> CalleePart {
    CalleePart {
        callee: register(line, 1).unwrap_or(0),
        kind: register(line, 2).unwrap_or(0),
        external: is_external(line),
        parameters: register(line, 4).unwrap_or(0),
        ranges: Vec::new(alloc),
        result_register: register(line, 5),
        clusters: Vec::new(alloc),
        result: None,
    }
}

fn add_to_class(alloc: Global, facts: &mut Facts, line: &str) -> Result<(), NoMemory> {
    let rivals = rivals(alloc, line)?;
    let leaves = numbers(alloc, line, 2)?;
    let number = register(line, 1).unwrap_or(0);
    let Some(class) = facts.classes.last_mut() else {
        return Ok(());
    };
    if line.starts_with("leaf ") {
        class.leaves.push(LeafPart {
            class: number,
            leaf: leaf_at(line, 2).unwrap_or(Leaf::Pointer),
            rivals,
        })?;
    } else {
        class.layouts.push(LayoutPart {
            layout: number,
            leaves,
        })?;
    }
    Ok(())
}

fn add_to_callee(alloc: Global, facts: &mut Facts, line: &str) -> Result<(), NoMemory> {
    let registers = numbers(alloc, line, 1)?;
    let entries = entries(alloc, line)?;
    let size = word(line, 1).unwrap_or("0").parse().unwrap_or(0);
    let Some(callee) = facts.callees.last_mut() else {
        return Ok(());
    };
    if line.starts_with("cluster") {
        callee.clusters.push(registers)?;
    } else if line.starts_with("returns") {
        callee.result = Some(Vec::new(alloc));
    } else if let Some(list) = &mut callee.result {
        list.push(Bounds { size, entries })?;
    }
    Ok(())
}

/// Adds what a line says; false where it says nothing of facts.
pub(crate) fn add_fact(alloc: Global, facts: &mut Facts, line: &str) -> Result<bool, NoMemory> {
    match word(line, 0).unwrap_or("").as_bytes() {
        b"targets" => facts.sets.push(numbers(alloc, line, 1)?)?,
        b"numbers" => {
            if let Some(part) = write_part(line) {
                facts.leaves.push(part)?;
            }
        }
        b"class" => facts.classes.push(ClassPart {
            class: register(line, 1).unwrap_or(0),
            length: word(line, 2).unwrap_or("0").parse().unwrap_or(0),
            leaves: Vec::new(alloc),
            layouts: Vec::new(alloc),
        })?,
        b"leaf" => add_to_class(alloc, facts, line)?,
        b"sub_object" => add_to_class(alloc, facts, line)?,
        b"callee" => facts.callees.push(callee(alloc, line))?,
        b"cluster" => add_to_callee(alloc, facts, line)?,
        b"returns" => add_to_callee(alloc, facts, line)?,
        b"matrix" => add_to_callee(alloc, facts, line)?,
        _ => return Ok(false),
    }
    Ok(true)
}
