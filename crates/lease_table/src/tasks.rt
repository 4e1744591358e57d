//! The tasks of a round with their standings, and beside them a tree of the times from which each may be claimed, so
//! that the least one is found without a scan.
ghost use Rattle.std.specs.Prelude.{◌≡◌, ℕ, ◌+◌, ◌*◌, ◌^◌, ◌<◌, ◌≤◌, ◌↔◌, length, map, count_by, replicate, IsTrue, IfOk, OnOk, OnErr, MatchOption, slice_get, slice_set, vec_len, vec_capacity, Some, true, false};
ghost use Rattle.lease_table.specs.Times.{time_at, IsTree};
ghost use Rattle.lease_table.specs.Standings.{free_from, free_from_if_any, expired, has_run_out, IsLeastClaimable, AllHeld, AllDone, Tasks as Kept, IsIndexed, SomeNotDone};

use crate::{Standing, times};
use std::alloc::{AllocError, Global};
use std::marker::Model;

/// The standings of a round's tasks, with room for more.
#[derive(Drop)]
pub(crate) struct Tasks {
    standings: Vec<Standing>,
    height: u32,
    times: Vec<Option<u64>>,
}

impl Model for Tasks {
    ghost use Rattle.std.specs.Prelude.{◌^◌, vec_capacity};
    ghost use Rattle.lease_table.specs.Standings.{Tasks as Kept, IsIndexed};

    ghost Value = { Kept };

    ghost view = { λ a. record { standings = a.standings.items; room = 2 ^ a.height } };

    ghost invariant = { λ a. IsIndexed a.height a.standings.items (vec_capacity a.standings) a.times.items };
}

// The time from which a task may be claimed, if it ever may.
fn free_from(standing: Standing) -> Option<u64>
    ensures { result ≡ free_from standing }
{
    match standing {
        Standing::Free => Some(0),
        Standing::Leased { until, .. } => Some(until),
        Standing::Done { .. } => None,
    }
}

// The height of the least tree with so many leaves.
fn height_for(tasks: u32) -> u32
    ensures room { tasks ≤ 2 ^ result }
    ensures bound { result ≤ 32 }
{
    let mut height = 0;
    let mut leaves: u64 = 1;
    while leaves < tasks as u64 {
        leaves *= 2;
        height += 1;
    }
    height
}

// The number of leaves of a tree of that height.
fn leaves_of(height: u32) -> usize
    requires { height ≤ 32 }
    ensures power { result ≡ 2 ^ height }
    ensures bound { result ≤ 2 ^ 32 }
{
    1 << height
}

// Makes the tree of these standings.
fn index(times: &mut [Option<u64>], leaves: usize, standings: &[Standing])
    requires { length times.old ≡ 2 * leaves }
    ensures tree { IsTree leaves times.new }
    ensures leaves { (k : ℕ) → k < leaves → time_at times.new (leaves + k) ≡ free_from_if_any (slice_get standings.now k) }
{
    for k in 0..leaves {
        times[leaves + k] = match standings.get(k) {
            Some(standing) => free_from(*standing),
            None => None,
        };
    }
    times::build(times, leaves);
}

fn fill_free(standings: &mut Vec<Standing>, count: usize)
    requires { count ≤ vec_capacity standings.old }
    ensures items { standings.new.items ≡ replicate count Standing.Free }
    ensures room { vec_capacity standings.new ≡ vec_capacity standings.old }
{
    standings.clear();
    for done in 0..count {
        standings.push_reserved(Standing::Free);
    }
}

fn has_run_out(standing: Standing, now: u64) -> bool
    ensures { result ≡ has_run_out now standing }
{
    match standing {
        Standing::Leased { until, .. } => until <= now,
        Standing::Free | Standing::Done { .. } => false,
    }
}

fn expired(standing: Standing, now: u64) -> Standing
    ensures { result ≡ expired now standing }
{
    if has_run_out(standing, now) {
        Standing::Free
    } else {
        standing
    }
}

fn free_run_out(standings: &mut [Standing], now: u64)
    ensures { standings.new ≡ map (expired now) standings.old }
{
    for standing in standings.iter_mut() {
        *standing = expired(*standing, now);
    }
}

fn count_run_out(standings: &[Standing], now: u64) -> u32
    requires { length standings.now < 2 ^ 32 }
    ensures { result ≡ count_by (has_run_out now) standings.now }
{
    let count = standings
        .iter()
        .filter(|standing| has_run_out(**standing, now))
        .count();
    count as u32
}

impl Tasks {
    /// No task yet, with room for so many.
    pub(crate) fn new(alloc: Global, tasks: u32) -> Result<Tasks, AllocError>
        ensures empty { IfOk result (λ made. length made.standings ≡ 0) }
        ensures room { IfOk result (λ made. tasks ≤ made.room) }
    {
        let height = height_for(tasks);
        let leaves = leaves_of(height);
        let standings = Vec::with_capacity(alloc, leaves)?;
        let mut times = vec![in alloc; None; 2 * leaves]?;
        index(&mut times, leaves, &standings);
        Ok(Tasks {
            standings,
            height,
            times,
        })
    }

    /// Makes room for so many tasks.
    pub(crate) fn reserve(&mut self, tasks: u32) -> Result<(), AllocError>
        ensures room { OnOk result (tasks ≤ self.new.room) }
        ensures more { self.old.room ≤ self.new.room }
        ensures same { self.new.standings ≡ self.old.standings }
        ensures err { OnErr result (self.new ≡ self.old) }
    {
        let leaves = self.times.len() / 2;
        if tasks as usize <= leaves {
            return Ok(());
        }
        let height = height_for(tasks);
        let leaves = leaves_of(height);
        self.standings.reserve(leaves - self.standings.len())?;
        self.times.resize(2 * leaves, None)?;
        self.height = height;
        index(&mut self.times, leaves, &self.standings);
        Ok(())
    }

    /// So many tasks, each of them free.
    pub(crate) fn restart(&mut self, tasks: u32)
        requires { tasks ≤ self.old.room }
        ensures free { self.new.standings ≡ replicate tasks Standing.Free }
        ensures room { self.new.room ≡ self.old.room }
    {
        let leaves = self.times.len() / 2;
        fill_free(&mut self.standings, tasks as usize);
        index(&mut self.times, leaves, &self.standings);
    }

    pub(crate) fn len(&self) -> u32
        ensures { result ≡ length self.now.standings }
    {
        self.standings.len() as u32
    }

    pub(crate) fn get(&self, task: u32) -> Option<Standing>
        ensures { result ≡ slice_get self.now.standings task }
    {
        self.standings.get(task as usize).copied()
    }

    pub(crate) fn set(&mut self, task: u32, standing: Standing)
        requires { task < length self.old.standings }
        ensures set { self.new.standings ≡ slice_set self.old.standings task standing }
        ensures room { self.new.room ≡ self.old.room }
    {
        let leaves = self.times.len() / 2;
        self.standings[task as usize] = standing;
        times::put(&mut self.times, leaves, task as usize, free_from(standing));
    }

    /// The least task that is free or whose lease has run out.
    pub(crate) fn first_claimable(&self, now: u64) -> Option<u32>
        ensures { MatchOption result (AllHeld now self.now.standings) (λ task. IsLeastClaimable now self.now.standings task) }
    {
        let leaf = times::first_due(&self.times, self.height, now)?;
        Some(leaf as u32)
    }

    pub(crate) fn all_done(&self) -> bool
        ensures all { result ≡ true → AllDone self.now.standings }
        ensures some { result ≡ false → SomeNotDone self.now.standings }
    {
        self.times[1].is_none()
    }

    /// Frees each task whose lease has run out, and counts them.
    pub(crate) fn expire(&mut self, now: u64) -> u32
        ensures freed { self.new.standings ≡ map (expired now) self.old.standings }
        ensures count { result ≡ count_by (has_run_out now) self.old.standings }
        ensures room { self.new.room ≡ self.old.room }
    {
        let leaves = self.times.len() / 2;
        let freed = count_run_out(&self.standings, now);
        free_run_out(&mut self.standings, now);
        index(&mut self.times, leaves, &self.standings);
        freed
    }
}
