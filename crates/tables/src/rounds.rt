ghost use Rattle.std.specs.Prelude.{◌≡◌, ◌≤◌, [], ◌∷◌, IfOk, length, count_by, vec_capacity};
ghost use Rattle.lease_table.specs.Machine.{started, Ends};
ghost use Rattle.lease_table.specs.declared.event.Event.TheVariants.{Ended};

use crate::{Next, Shelf};
use lease_table::{Abandoned, Claimed, Event, Lease, Published, Standing};
use std::alloc::Global;
use std::marker::Model;
use sv_base::NoMemory;

/// The rounds as far as they have come: the machine of their leases, the artifacts, what the current round needs of those
/// before it, and all that changed the machine.
#[derive(Drop)]
pub(crate) struct Rounds<B> {
    lease: Lease,
    shelf: Shelf,
    basis: Option<B>,
    events: Vec<Event>,
}

impl<B> Model for Rounds<B> {
    ghost use Rattle.tables.specs.Rounds.{Rounded, IsKept};

    ghost Value = { Rounded B };

    ghost view = { λ r. record { machine = r.lease.machine; shelf = r.shelf; basis = r.basis; events = r.events.items } };

    ghost invariant = { λ r. IsKept r.lease r.shelf r.basis r.events };
}

// The machine of a work that has no round at all.
fn ended(alloc: Global) -> Result<(Lease, Vec<Event>), NoMemory>
    ensures lease { IfOk result (λ r. Ends (started 0) r.0.machine) }
    ensures events { IfOk result (λ r. r.1.items ≡ Ended ∷ []) }
{
    let mut lease = Lease::new(alloc, 0)?;
    let mut events = Vec::with_capacity(alloc, 1)?;
    lease.end();
    events.push_reserved(Event::Ended);
    Ok((lease, events))
}

impl<B: Drop> Rounds<B> {
    ghost use Rattle.std.specs.Prelude.{◌≡◌, ◌++◌, ◌∷◌, [], ◌<◌, ◌^◌, ◌-◌, true, false, length, Some, IfOk, OnOk, OnErr, slice_get};
    ghost use Rattle.lease_table.specs.Machine.{found_standing, Holds, Claims, Publishes, Abandons, Expires, Keeps};
    ghost use Rattle.lease_table.specs.Standings.{AllDone, SomeNotDone};
    ghost use Rattle.lease_table.specs.declared.standing.Published.TheVariants.{Stored};
    ghost use Rattle.tables.specs.Rounds.{Begins, Follows, claims_of, abandons_of, expires_of};
    ghost use Rattle.tables.specs.Shelves.{shelved};
    ghost use Rattle.tables.specs.Works.{HasTask};

    /// Before the first task of the first round.
    pub(crate) fn new(alloc: Global, first: Next<B>) -> Result<Rounds<B>, NoMemory>
        requires { HasTask first }
        ensures { IfOk result (λ r. Begins first r) }
    {
        let mut shelf = Shelf::new(alloc);
        match first {
            Next::Round { tasks, basis } => {
                let lease = Lease::new(alloc, tasks)?;
                shelf.begin(alloc, tasks)?;
                Ok(Rounds {
                    lease,
                    shelf,
                    basis: Some(basis),
                    events: Vec::new(alloc),
                })
            }
            Next::End => {
                let (lease, events) = ended(alloc)?;
                Ok(Rounds {
                    lease,
                    shelf,
                    basis: None,
                    events,
                })
            }
        }
    }

    pub(crate) fn round(&self) -> u32
        ensures { result ≡ self.now.machine.round }
    {
        self.lease.round()
    }

    /// Whether the last round was ended. A round that goes on has a task.
    pub(crate) fn is_ended(&self) -> bool
        ensures ended { result ≡ self.now.machine.ended }
        ensures task { result ≡ false → 0 < length self.now.machine.tasks }
    {
        self.lease.is_ended()
    }

    pub(crate) fn tasks(&self) -> u32
        ensures { result ≡ length self.now.machine.tasks }
    {
        self.lease.tasks()
    }

    pub(crate) fn is_round_done(&self) -> bool
        ensures all { result ≡ true → AllDone self.now.machine.tasks }
        ensures some { result ≡ false → SomeNotDone self.now.machine.tasks }
    {
        self.lease.is_round_done()
    }

    /// Where a task stands, if it is one of the current round.
    pub(crate) fn found(&self, round: u32, task: u32) -> Option<Standing>
        ensures { result ≡ found_standing self.now.machine round task }
    {
        self.lease.found(round, task)
    }

    pub(crate) fn shelf(&self) -> &Shelf
        ensures { result.now ≡ self.now.shelf }
    {
        &self.shelf
    }

    /// What the tasks of the current round need of the rounds before.
    pub(crate) fn basis(&self) -> &B
        requires { 0 < length self.now.machine.tasks }
        ensures { self.now.basis ≡ Some result.now }
    {
        match &self.basis {
            Some(basis) => basis,
            None => unreachable!(),
        }
    }

    /// Takes the artifact of a task that was kept from before.
    pub(crate) fn keep(&mut self, task: u32, artifact: Vec<u8>) -> Result<(), NoMemory>
        requires { slice_get self.old.machine.tasks task ≡ Some Standing.Free }
        ensures step { OnOk result (Keeps task self.old.machine self.new.machine) }
        ensures shelf { OnOk result (self.new.shelf ≡ shelved self.old.shelf task artifact.items) }
        ensures events { OnOk result (self.new.events ≡ self.old.events ++ Event.Kept task ∷ []) }
        ensures basis { self.new.basis ≡ self.old.basis }
        ensures err { OnErr result (self.new ≡ self.old) }
    {
        self.events.reserve(self.lease.tasks() as usize + 1)?;
        self.lease.keep(task);
        self.shelf.put(task, artifact);
        self.events.push_reserved(Event::Kept { task });
        Ok(())
    }

    /// Leases a task, and makes room for the event that ends the lease.
    pub(crate) fn claim(&mut self, worker: u32, now: u64, term: u64) -> Result<Claimed, NoMemory>
        ensures step { IfOk result (λ claimed. Claims now term self.old.machine claimed self.new.machine) }
        ensures events { IfOk result (λ claimed. self.new.events ≡ self.old.events ++ claims_of now term claimed) }
        ensures shelf { self.new.shelf ≡ self.old.shelf }
        ensures basis { self.new.basis ≡ self.old.basis }
        ensures err { OnErr result (self.new ≡ self.old) }
    {
        self.events.reserve(self.lease.tasks() as usize + 2)?;
        let claimed = self.lease.claim(worker, now, term);
        if let Claimed::Work { task, .. } = claimed {
            let until = now.saturating_add(term);
            self.events.push_reserved(Event::Claimed { task, until });
        }
        Ok(claimed)
    }

    /// Puts the artifact of a task that this ticket leases.
    pub(crate) fn publish(&mut self, round: u32, task: u32, ticket: u64, artifact: Vec<u8>)
        requires { Holds self.old.machine round task ticket }
        ensures step { Publishes round task ticket self.old.machine Stored self.new.machine }
        ensures shelf { self.new.shelf ≡ shelved self.old.shelf task artifact.items }
        ensures events { self.new.events ≡ self.old.events ++ Event.Published round task ticket ∷ [] }
        ensures basis { self.new.basis ≡ self.old.basis }
    {
        match self.lease.publish(round, task, ticket) {
            Published::Stored => (),
            Published::Lost { .. } => unreachable!(),
        }
        self.shelf.put(task, artifact);
        self.events.push_reserved(Event::Published {
            round,
            task,
            ticket,
        });
    }

    /// Gives a lease back.
    pub(crate) fn abandon(&mut self, round: u32, task: u32, ticket: u64) -> Abandoned
        ensures step { Abandons round task ticket self.old.machine result self.new.machine }
        ensures events { self.new.events ≡ self.old.events ++ abandons_of task result }
        ensures shelf { self.new.shelf ≡ self.old.shelf }
        ensures basis { self.new.basis ≡ self.old.basis }
    {
        let answer = self.lease.abandon(round, task, ticket);
        if let Abandoned::Freed = answer {
            self.events.push_reserved(Event::Abandoned { task });
        }
        answer
    }

    /// Frees each task whose lease has run out, and counts them.
    pub(crate) fn expire(&mut self, now: u64) -> u32
        ensures step { Expires now self.old.machine result self.new.machine }
        ensures events { self.new.events ≡ self.old.events ++ expires_of now result }
        ensures shelf { self.new.shelf ≡ self.old.shelf }
        ensures basis { self.new.basis ≡ self.old.basis }
    {
        let freed = self.lease.expire(now);
        if freed > 0 {
            self.events.push_reserved(Event::Expired { now });
        }
        freed
    }

    /// Begins the next round, or ends the machine after the last.
    pub(crate) fn advance(&mut self, alloc: Global, next: Next<B>) -> Result<(), NoMemory>
        requires task { HasTask next }
        requires done { AllDone self.old.machine.tasks }
        requires going { self.old.machine.ended ≡ false }
        requires round { self.old.machine.round < 2 ^ 32 - 2 }
        ensures follows { OnOk result (Follows next self.old self.new) }
        ensures task { 0 < length self.old.machine.tasks }
        ensures err { OnErr result (self.new ≡ self.old) }
    {
        self.events.reserve(1)?;
        match next {
            Next::Round { tasks, basis } => {
                self.lease.reserve(tasks)?;
                self.shelf.begin(alloc, tasks)?;
                self.lease.advance(tasks);
                self.basis = Some(basis);
                self.events.push_reserved(Event::Advanced { tasks });
            }
            Next::End => {
                self.lease.end();
                self.events.push_reserved(Event::Ended);
            }
        }
        Ok(())
    }
}
