//! `points time FILE` solves the constraints of a file and writes how many seconds that took, how many nodes, constraints and
//! members there are, and a checksum of all sets; `points list FILE` writes the members of each node's set. See `input.rt`
//! for the form of a file.

use crate::checksum::{Tally, tally_of};
use crate::clock::since;
use crate::input::read;
use crate::trouble::Trouble;
use core_ir::{ClassTable, Constraint, Solution};
use points_to::{fits, solve};
use std::alloc::Global;
use std::time::Instant;

fn solved(
    alloc: Global,
    nodes: u32,
    all: &[Constraint],
    classes: &ClassTable,
) -> Result<Solution, Trouble> {
    if !fits(nodes, all, classes) {
        return Err(Trouble::Range);
    }
    Ok(solve(alloc, nodes, all, classes)?)
}

fn list(rt: &HostRuntime, file: &str) -> Result<(), Trouble> {
    let input = read(rt, file)?;
    let solution = solved(rt.alloc(), input.nodes, &input.all, &input.classes)?;
    for set in &solution.sets {
        println!(rt; "{set:?}")?;
    }
    Ok(())
}

fn time(rt: &HostRuntime, file: &str) -> Result<(), Trouble> {
    let input = read(rt, file)?;
    let start = Instant::now(rt)?;
    let solution = solved(rt.alloc(), input.nodes, &input.all, &input.classes)?;
    let taken = since(rt, start)?;
    let nodes = input.nodes;
    let count = input.all.len();
    let Tally { members, checksum } = tally_of(&solution.sets);
    println!(rt;
        "seconds {}.{:06} nodes {nodes} constraints {count} members {members} checksum {checksum}",
        taken.seconds, taken.behind
    )?;
    Ok(())
}

pub(crate) fn answer(rt: &HostRuntime, words: &[String]) -> Result<(), Trouble> {
    match words {
        [name, file] if name.as_str() == "list" => list(rt, file.as_str()),
        [name, file] if name.as_str() == "time" => time(rt, file.as_str()),
        _ => Err(Trouble::Words),
    }
}
