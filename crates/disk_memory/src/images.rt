ghost use Rattle.std.specs.Prelude.{◌≡◌, ◌≤◌, ◌++◌, [], ◌∷◌, ◌+◌, ◌⊎◌, true, length, take, drop, IfOk, OnOk};
ghost use Rattle.disk_memory.specs.Calls.{ops_of, read_after, past_end};
ghost use Rattle.disk_memory.specs.Listed.{listed_after, listed_by, listed_images};
ghost use Rattle.disk_memory.specs.Replay.{contents, op_with, size_of, IsReplayable, IsReplayed, IsSettled};

use crate::filling::filled;
use crate::medium::{Call, Medium, cut_if, put_if};
use std::alloc::Global;
use sv_base::NoMemory;

/// The bytes that a call wrote, which begin at that place in the store.
fn piece_of(call: Call, store: &[u8], used: usize) -> &[u8]
    requires { used + size_of call ≤ length store.now }
    ensures { result.now ≡ take (size_of call) (drop used store.now) }
{
    match call {
        Call::Write { len, .. } => &store[used..used + len as usize],
        Call::Cut { .. } | Call::Sync { .. } => &[],
    }
}

/// Does a call again, if it was done.
fn redo(read: &mut Vec<u8>, call: Call, piece: &[u8]) -> Result<(), NoMemory>
    requires { past_end read.old.items (op_with call piece.now) ≡ 0 }
    ensures { OnOk result (read.new.items ≡ read_after read.old.items (op_with call piece.now)) }
{
    match call {
        Call::Write { at, done, .. } => {
            read.reserve(piece.len())?;
            put_if(done, read, at as usize, piece);
        }
        Call::Cut { to, done } => cut_if(done, read, to as usize),
        Call::Sync { .. } => (),
    }
    Ok(())
}

/// How many calls there were when the last sync was done.
fn calls_until_sync(calls: &[Call]) -> usize
    ensures within { result ≤ length calls.now }
    ensures synced { IsSettled calls.now result }
{
    let mut until = 0;
    for (at, call) in calls.iter().enumerate() {
        if let Call::Sync { done: true } = call {
            until = at + 1;
        }
    }
    until
}

/// What is read after some first calls, and how much of the store these have used.
#[derive(Drop)]
struct Replay {
    read: Vec<u8>,
    used: usize,
}

/// Goes on by one call.
fn step(replay: &mut Replay, call: Call, store: &[u8]) -> Result<(), NoMemory>
    requires inside { replay.old.used + size_of call ≤ length store.now }
    requires place { past_end replay.old.read.items (op_with call (take (size_of call) (drop replay.old.used store.now))) ≡ 0 }
    ensures read { OnOk result (replay.new.read.items ≡ read_after replay.old.read.items (op_with call (take (size_of call) (drop replay.old.used store.now)))) }
    ensures used { OnOk result (replay.new.used ≡ replay.old.used + size_of call) }
{
    let piece = piece_of(call, store, replay.used);
    redo(&mut replay.read, call, piece)?;
    replay.used += piece.len();
    Ok(())
}

/// Goes on by one call, and changes the list by it.
fn list_call(
    alloc: Global,
    images: &mut Vec<Vec<u8>>,
    replay: &mut Replay,
    call: Call,
    store: &[u8],
) -> Result<(), NoMemory>
    requires inside { replay.old.used + size_of call ≤ length store.now }
    requires place { past_end replay.old.read.items (op_with call (take (size_of call) (drop replay.old.used store.now))) ≡ 0 }
    ensures listed { OnOk result (contents images.new.items ≡ listed_after replay.old.read.items (contents images.old.items) (op_with call (take (size_of call) (drop replay.old.used store.now)))) }
    ensures read { OnOk result (replay.new.read.items ≡ read_after replay.old.read.items (op_with call (take (size_of call) (drop replay.old.used store.now)))) }
    ensures used { OnOk result (replay.new.used ≡ replay.old.used + size_of call) }
{
    match call {
        Call::Write { at, len, .. } => {
            images.push(filled(alloc, &replay.read, at as usize, len as usize)?)?;
            step(replay, call, store)?;
            images.push(Vec::from_slice(alloc, &replay.read)?)?;
            Ok(())
        }
        Call::Cut { .. } => {
            step(replay, call, store)?;
            images.push(Vec::from_slice(alloc, &replay.read)?)?;
            Ok(())
        }
        Call::Sync { done: true } => {
            step(replay, call, store)?;
            images.clear();
            images.push(Vec::from_slice(alloc, &replay.read)?)?;
            Ok(())
        }
        Call::Sync { done: false } => step(replay, call, store),
    }
}

/// Does the first calls again, so many.
fn replayed(
    alloc: Global,
    first: &[u8],
    calls: &[Call],
    store: &[u8],
    until: usize,
) -> Result<Replay, NoMemory>
    requires within { until ≤ length calls.now }
    requires can_be { IsReplayable first.now calls.now store.now 0 }
    ensures { IfOk result (λ r. IsReplayed first.now (ops_of calls.now store.now) calls.now store.now until r.read.items r.used) }
{
    let mut replay = Replay {
        read: Vec::from_slice(alloc, first)?,
        used: 0,
    };
    for at in 0..until {
        step(&mut replay, calls[at], store)?;
    }
    Ok(replay)
}

/// Lists what these calls may leave, with what is read before them.
fn list_from(
    alloc: Global,
    mut replay: Replay,
    calls: &[Call],
    store: &[u8],
) -> Result<Vec<Vec<u8>>, NoMemory>
    requires { IsReplayable replay.read.items calls.now store.now replay.used }
    ensures { IfOk result (λ l. contents l.items ≡ listed_by replay.read.items (replay.read.items ∷ []) (ops_of calls.now (drop replay.used store.now))) }
{
    let mut images = Vec::new(alloc);
    images.push(Vec::from_slice(alloc, &replay.read)?)?;
    for at in 0..calls.len() {
        list_call(alloc, &mut images, &mut replay, calls[at], store)?;
    }
    Ok(images)
}

impl Medium {
    ghost use Rattle.std.specs.Prelude.{◌≡◌, ◌++◌, [], ◌∷◌, true, List, All, Contains, IfOk};
    ghost use Rattle.disk_memory.specs.Calls.{Op};
    ghost use Rattle.disk_memory.specs.Calls.Op.{synced};
    ghost use Rattle.disk_memory.specs.Listed.{listed_images};
    ghost use Rattle.disk_memory.specs.Media.{medium_first, medium_seen, medium_record, medium_images};
    ghost use Rattle.disk_memory.specs.Replay.{contents};

    /// Some of the images that a crash may leave.
    pub(crate) fn images(&self, alloc: Global) -> Result<Vec<Vec<u8>>, NoMemory>
        ensures listed { IfOk result (λ l. contents l.items ≡ listed_images (medium_first self.now) (medium_record self.now)) }
        ensures left { IfOk result (λ l. All (medium_images self.now) (contents l.items)) }
        ensures reads { IfOk result (λ l. Contains (contents l.items) (medium_seen self.now)) }
        ensures settled { (ops : List Op) → medium_record self.now ≡ ops ++ synced true ∷ [] → IfOk result (λ l. contents l.items ≡ medium_seen self.now ∷ []) }
    {
        let until = calls_until_sync(&self.calls);
        let replay = replayed(alloc, &self.first, &self.calls, &self.store, until)?;
        let images = list_from(alloc, replay, &self.calls[until..], &self.store)?;
        Ok(images)
    }
}
