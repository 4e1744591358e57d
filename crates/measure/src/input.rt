//! A file has numbers with blanks between them: how many registers and how many region classes there are, and then the rule, the
//! target, the source and the third number of each constraint; of a rule the lowest eight bits count. Each region class has one leaf
//! class, a pointer, with its own number.

use crate::trouble::Trouble;
use core_ir::{ClassTable, Constraint, Leaf, RegionClass};
use std::alloc::Global;
use std::fs;
use sv_base::NoMemory;

/// What a solver is given.
#[derive(Drop)]
pub(crate) struct Input {
    pub(crate) nodes: u32,
    pub(crate) all: Vec<Constraint>,
    pub(crate) classes: ClassTable,
}

fn numbers(alloc: Global, text: &str) -> Result<Vec<u32>, Trouble> {
    let mut all = Vec::new(alloc);
    for word in text.split_whitespace() {
        match word.parse() {
            Ok(number) => all.push(number)?,
            Err(_) => return Err(Trouble::Form),
        }
    }
    Ok(all)
}

fn constraint(row: &[u32]) -> Result<Constraint, Trouble> {
    match row {
        [rule, target, source, third] => Ok(Constraint {
            rule: (*rule & 0xff) as u8,
            target: *target,
            source: *source,
            third: *third,
        }),
        _ => Err(Trouble::Form),
    }
}

fn constraints(alloc: Global, numbers: &[u32]) -> Result<Vec<Constraint>, Trouble> {
    let mut all = Vec::new(alloc);
    for row in numbers.chunks(4) {
        all.push(constraint(row)?)?;
    }
    Ok(all)
}

// A region class with a leaf class of its own.
fn region(alloc: Global, number: u32) -> Result<RegionClass, NoMemory> {
    let mut leaves = Vec::new(alloc);
    leaves.push(number)?;
    Ok(RegionClass {
        length: 8,
        leaves,
        parts: Vec::new(alloc),
        layouts: Vec::new(alloc),
    })
}

fn table(alloc: Global, registers: u32, count: u32) -> Result<ClassTable, NoMemory> {
    let mut regions = Vec::new(alloc);
    let mut leaves = Vec::new(alloc);
    for number in 0..count {
        regions.push(region(alloc, number)?)?;
        leaves.push(Leaf::Pointer)?;
    }
    Ok(ClassTable {
        registers,
        regions,
        leaves,
        rivals: Vec::new(alloc),
        nodes: Vec::new(alloc),
    })
}

fn input_of(alloc: Global, numbers: &[u32]) -> Result<Input, Trouble> {
    let [registers, regions, rest @ ..] = numbers else {
        return Err(Trouble::Form);
    };
    let Some(nodes) = registers.checked_add(*regions) else {
        return Err(Trouble::Range);
    };
    Ok(Input {
        nodes,
        all: constraints(alloc, rest)?,
        classes: table(alloc, *registers, *regions)?,
    })
}

/// Reads a file.
pub(crate) fn read(rt: &HostRuntime, file: &str) -> Result<Input, Trouble> {
    let text = fs::read_to_string(rt, file)?;
    input_of(rt.alloc(), &numbers(rt.alloc(), &text)?)
}
