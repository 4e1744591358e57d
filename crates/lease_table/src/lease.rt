ghost use Rattle.std.specs.Prelude.{◌≡◌, ◌+◌, ◌-◌, ◌^◌, ◌<◌, ◌≤◌, true, false, length, replicate, IfOk, OnOk, OnErr, slice_get, Some};
ghost use Rattle.lease_table.specs.Standings.{AllDone, SomeNotDone};
ghost use Rattle.lease_table.specs.Machine.{started, found_standing, Claims, Publishes, Abandons, Expires, Advances, Ends, Keeps};

use crate::tasks::Tasks;
use crate::{Abandoned, Claimed, Published, Standing};
use std::alloc::Global;
use std::marker::Model;
use sv_base::NoMemory;

/// The rounds of tasks that workers claim, publish and give back. It knows no artifact, no clock and no thread: each call
/// is one step, and the caller says what time it is.
#[derive(Drop)]
pub struct Lease {
    round: u32,
    ended: bool,
    next_ticket: u64,
    tasks: Tasks,
}

impl Model for Lease {
    ghost use Rattle.lease_table.specs.Machine.{Reserved};

    ghost Value = { Reserved };

    ghost view = { λ a. record { machine = record { round = a.round; ended = a.ended; next_ticket = a.next_ticket; tasks = a.tasks.standings }; room = a.tasks.room } };
}

impl Lease {
    /// Round 0 with so many tasks, each of them free.
    pub fn new(alloc: Global, tasks: u32) -> Result<Lease, NoMemory>
        ensures started { IfOk result (λ lease. lease.machine ≡ started tasks) }
        ensures room { IfOk result (λ lease. tasks ≤ lease.room) }
    {
        let mut kept = Tasks::new(alloc, tasks)?;
        kept.restart(tasks);
        Ok(Lease {
            round: 0,
            ended: false,
            next_ticket: 0,
            tasks: kept,
        })
    }

    /// Makes room for a round of so many tasks.
    pub fn reserve(&mut self, tasks: u32) -> Result<(), NoMemory>
        ensures room { OnOk result (tasks ≤ self.new.room) }
        ensures more { self.old.room ≤ self.new.room }
        ensures same { self.new.machine ≡ self.old.machine }
        ensures err { OnErr result (self.new ≡ self.old) }
    {
        self.tasks.reserve(tasks)?;
        Ok(())
    }

    /// The number of the round, from 0.
    pub fn round(&self) -> u32
        ensures { result ≡ self.now.machine.round }
    {
        self.round
    }

    /// How many tasks the round has.
    pub fn tasks(&self) -> u32
        ensures count { result ≡ length self.now.machine.tasks }
    {
        self.tasks.len()
    }

    /// Whether each task of the round is done.
    pub fn is_round_done(&self) -> bool
        ensures all { result ≡ true → AllDone self.now.machine.tasks }
        ensures some { result ≡ false → SomeNotDone self.now.machine.tasks }
    {
        self.tasks.all_done()
    }

    /// Where a task of the round stands.
    pub fn standing(&self, task: u32) -> Standing
        requires { task < length self.now.machine.tasks }
        ensures { slice_get self.now.machine.tasks task ≡ Some result }
    {
        match self.tasks.get(task) {
            Some(standing) => standing,
            None => unreachable!(),
        }
    }

    /// Whether the last round was ended.
    pub fn is_ended(&self) -> bool
        ensures { result ≡ self.now.machine.ended }
    {
        self.ended
    }

    /// Takes a task whose artifact was kept from before as done.
    pub fn keep(&mut self, task: u32)
        requires free { slice_get self.old.machine.tasks task ≡ Some Standing.Free }
        requires ticket { self.old.machine.next_ticket < 2 ^ 64 - 1 }
        ensures step { Keeps task self.old.machine self.new.machine }
        ensures room { self.new.room ≡ self.old.room }
    {
        let ticket = self.next_ticket;
        self.next_ticket += 1;
        self.tasks.set(task, Standing::Done { ticket });
    }

    /// Leases the least task that is free or whose lease has run out, for `term` units from `now`. The machine asks
    /// nothing of the worker's number.
    pub fn claim(&mut self, _worker: u32, now: u64, term: u64) -> Claimed
        requires { self.old.machine.next_ticket < 2 ^ 64 - 1 }
        ensures step { Claims now term self.old.machine result self.new.machine }
        ensures room { self.new.room ≡ self.old.room }
    {
        if self.ended {
            return Claimed::Finished;
        }
        match self.tasks.first_claimable(now) {
            Some(task) => {
                let ticket = self.next_ticket;
                let until = now.saturating_add(term);
                self.next_ticket = ticket + 1;
                self.tasks.set(task, Standing::Leased { ticket, until });
                Claimed::Work { task, ticket }
            }
            None => {
                if self.tasks.all_done() {
                    Claimed::RoundDone
                } else {
                    Claimed::Wait
                }
            }
        }
    }

    /// Where the task stands, if it is one of the current round.
    pub fn found(&self, round: u32, task: u32) -> Option<Standing>
        ensures { result ≡ found_standing self.now.machine round task }
    {
        if round == self.round {
            self.tasks.get(task)
        } else {
            None
        }
    }

    /// Makes a task done by the ticket of its lease.
    pub fn publish(&mut self, round: u32, task: u32, ticket: u64) -> Published
        ensures step { Publishes round task ticket self.old.machine result self.new.machine }
        ensures room { self.new.room ≡ self.old.room }
    {
        match self.found(round, task) {
            Some(Standing::Leased { ticket: by, .. }) if by == ticket => {
                self.tasks.set(task, Standing::Done { ticket });
                Published::Stored
            }
            standing => Published::Lost {
                round: self.round,
                standing,
            },
        }
    }

    /// Gives a lease back by its ticket.
    pub fn abandon(&mut self, round: u32, task: u32, ticket: u64) -> Abandoned
        ensures step { Abandons round task ticket self.old.machine result self.new.machine }
        ensures room { self.new.room ≡ self.old.room }
    {
        match self.found(round, task) {
            Some(Standing::Leased { ticket: leased, .. }) if leased == ticket => {
                self.tasks.set(task, Standing::Free);
                Abandoned::Freed
            }
            standing => Abandoned::Lost {
                round: self.round,
                standing,
            },
        }
    }

    /// Frees each task whose lease has run out, and counts them.
    pub fn expire(&mut self, now: u64) -> u32
        ensures step { Expires now self.old.machine result self.new.machine }
        ensures room { self.new.room ≡ self.old.room }
    {
        self.tasks.expire(now)
    }

    /// Begins the next round with so many tasks, each of them free.
    pub fn advance(&mut self, tasks: u32)
        requires done { AllDone self.old.machine.tasks }
        requires going { self.old.machine.ended ≡ false }
        requires round { self.old.machine.round < 2 ^ 32 - 1 }
        requires room { tasks ≤ self.old.room }
        ensures step { Advances tasks self.old.machine self.new.machine }
        ensures room { self.new.room ≡ self.old.room }
    {
        self.round += 1;
        self.tasks.restart(tasks);
    }

    /// Ends the machine after its last round.
    pub fn end(&mut self)
        requires done { AllDone self.old.machine.tasks }
        requires going { self.old.machine.ended ≡ false }
        ensures step { Ends self.old.machine self.new.machine }
        ensures room { self.new.room ≡ self.old.room }
    {
        self.ended = true;
    }
}
