// The walk over the steps of a body. `room` is how many calls may still stand inside one another: a body that nests deeper than the
// stack could hold is refused as for want of memory.

use crate::walk::Walk;
use core_ir::{Cond, Step};
use std::alloc::Global;
use std::mem;
use sv_base::NoMemory;
use transfer::assume;
use var_state::Widening;

/// How deep the steps of a body may nest, blocks that begin with a block counted once.
pub(crate) const ROOM: u32 = 4096;

// How often the body of a loop is tried before its state is given up.
const TURNS: u32 = 12;

// A loop that is entered: its number, and the mark at its start.
#[derive(Clone, Copy)]
struct Head {
    number: usize,
    start: usize,
}

/// The state behind the steps.
#[cycle(walking)]
pub(crate) fn run(steps: &[Step], walk: &mut Walk<'_>, room: u32) -> Result<(), NoMemory> {
    let Some(room) = room.checked_sub(1) else {
        return Err(NoMemory);
    };
    for k in 0..steps.len() {
        if walk.is_bottom() {
            return walk.pass_over(&steps[k..]);
        }
        run_step(&steps[k], walk, room)?;
    }
    Ok(())
}

#[cycle(walking)]
fn run_step(step: &Step, walk: &mut Walk<'_>, room: u32) -> Result<(), NoMemory> {
    match step {
        Step::If { cond, then, other } => branch(then, other, cond, walk, room),
        Step::Block(body) => block(body, walk, room),
        Step::Loop(body) => repeat(body, walk, room),
        Step::Exit(block) => walk.exit(*block),
        Step::Return(value) => walk.give_back(*value),
        _ => walk.plain(step),
    }
}

#[cycle(walking)]
fn branch(
    then: &[Step],
    other: &[Step],
    cond: &Cond,
    walk: &mut Walk<'_>,
    room: u32,
) -> Result<(), NoMemory> {
    let alloc = walk.alloc;
    walk.running.mark()?;
    assume(alloc, &mut walk.running, cond, true)?;
    run(then, walk, room)?;
    let first = walk.running.take_back(alloc)?;
    assume(alloc, &mut walk.running, cond, false)?;
    run(other, walk, room)?;
    walk.running.join(alloc, first)?;
    walk.running.release();
    Ok(())
}

// What is left of the bodies of blocks each of which begins the one around it: behind the first block, and of the innermost all.
fn rests<'a>(alloc: Global, body: &'a [Step]) -> Result<Vec<&'a [Step]>, NoMemory> {
    let mut rests: Vec<&[Step]> = Vec::new(alloc);
    let mut inner = body;
    for _deeper in 0..u64::MAX {
        match inner.split_first() {
            Some((Step::Block(first), rest)) => {
                rests.push(rest)?;
                inner = first;
            }
            _ => break,
        }
    }
    rests.push(inner)?;
    Ok(rests)
}

// A switch of many cases is as many blocks, each the first step of the one around it: they are opened one after another.
#[cycle(walking)]
fn block(body: &[Step], walk: &mut Walk<'_>, room: u32) -> Result<(), NoMemory> {
    let mut left = rests(walk.alloc, body)?;
    for _open in 0..left.len() {
        walk.open_block()?;
    }
    while let Some(rest) = left.pop() {
        run(rest, walk, room)?;
        walk.close_block()?;
    }
    Ok(())
}

// The state at the head after one more pass of a body that does not count: the one at the loop's start joined with it.
#[cycle(walking)]
fn pass(body: &[Step], walk: &mut Walk<'_>, room: u32, head: Head) -> Result<(), NoMemory> {
    walk.recall.restart(head.number);
    run(body, walk, room)?;
    walk.running.join_mark(walk.alloc, head.start)
}

// One turn from the present state. True where it is the last one: the state is then the one that the pass that counts starts from.
#[cycle(walking)]
fn turn(
    body: &[Step],
    walk: &mut Walk<'_>,
    room: u32,
    head: Head,
    widening: &mut Widening,
    last: bool,
) -> Result<bool, NoMemory> {
    walk.running.mark()?;
    pass(body, walk, room, head)?;
    let found = walk.running.is_within_mark();
    if !found && last {
        walk.running.undo();
        walk.running.set_top(walk.alloc)?;
        pass(body, walk, room, head)?;
    }
    if !found && !last {
        walk.running.widen_mark(walk.alloc, widening)?;
    }
    walk.running.release();
    Ok(found || last)
}

#[cycle(walking)]
fn turns(body: &[Step], walk: &mut Walk<'_>, room: u32, head: Head) -> Result<(), NoMemory> {
    let mut widening = Widening::new(walk.alloc);
    pass(body, walk, room, head)?;
    for k in 2..TURNS + 1 {
        if turn(body, walk, room, head, &mut widening, k == TURNS)? {
            return Ok(());
        }
    }
    Ok(())
}

// From the state at the loop's start to the one from which its last pass starts.
#[cycle(walking)]
fn settle(body: &[Step], walk: &mut Walk<'_>, room: u32, head: Head) -> Result<(), NoMemory> {
    let counts = mem::replace(&mut walk.counts, false);
    let blocks = walk.blocks.len();
    let first_live = mem::replace(&mut walk.first_live, blocks);
    turns(body, walk, room, head)?;
    walk.counts = counts;
    walk.first_live = first_live;
    Ok(())
}

// As `settle`, from what was found when the loop was entered in this state before.
#[cycle(walking)]
fn settle_again(body: &[Step], walk: &mut Walk<'_>, room: u32, head: Head) -> Result<(), NoMemory> {
    let alloc = walk.alloc;
    if walk
        .recall
        .put_again(alloc, head.number, &mut walk.running)?
    {
        return Ok(());
    }
    let entry = walk.recall.look(alloc, head.number, body, &walk.running)?;
    settle(body, walk, room, head)?;
    let found = walk.recall.look(alloc, head.number, body, &walk.running)?;
    walk.recall.keep(head.number, entry, found)
}

// A loop is left by the exits and returns inside it alone. Its last pass alone counts.
#[cycle(walking)]
fn repeat(body: &[Step], walk: &mut Walk<'_>, room: u32) -> Result<(), NoMemory> {
    let number = walk.recall.enter();
    let start = walk.running.mark()?;
    let head = Head { number, start };
    let in_loop = mem::replace(&mut walk.in_loop, true);
    if in_loop {
        settle_again(body, walk, room, head)?;
    } else {
        settle(body, walk, room, head)?;
    }
    walk.recall.restart(number);
    run(body, walk, room)?;
    walk.in_loop = in_loop;
    walk.running.set_bottom();
    walk.running.release();
    Ok(())
}
