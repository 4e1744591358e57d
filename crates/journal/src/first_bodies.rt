ghost use Rattle.std.specs.Prelude.{◌≡◌, ◌++◌, ◌∷◌, [], List, length, OnOk, OnErr, IsErrOf};
ghost use Rattle.indexmap.specs.IndexMap.{get};
ghost use Rattle.journal.specs.declared.fault.OpenFault.TheVariants.{NoMemory as no_memory};
ghost use Rattle.journal.specs.declared.first_bodies.TaskKey.{TaskKey as Keyed};
ghost use Rattle.journal.specs.Format.{Entry};
ghost use Rattle.journal.specs.Keys.{same_key, key_of, IsFirst};

use crate::{Kept, OpenFault};
use indexmap::IndexMap;
use std::alloc::Global;

// The body that stands for that of the round before.
const SHORT: [u8; 1] = [6];

/// A task of a round.
#[derive(Clone, Copy, PartialEq, Eq, Hash)]
pub(crate) struct TaskKey {
    pub(crate) round: u32,
    pub(crate) task: u32,
}

// Notes where a record is, unless one of the same key is before it.
fn note(firsts: &mut IndexMap<TaskKey, usize>, key: TaskKey, index: usize) -> Result<(), OpenFault>
    ensures noted { OnOk result ((entries : List Entry) (entry : Entry) → length entries ≡ index → key ≡ key_of entry → ((q : Keyed) → IsFirst (get same_key firsts.old q) entries q) → (q : Keyed) → IsFirst (get same_key firsts.new q) (entries ++ entry ∷ []) q) }
    ensures refused { OnErr result (IsErrOf result no_memory) }
{
    if firsts.get(&key).is_some() {
        return Ok(());
    }
    firsts.insert(key, index)?;
    Ok(())
}

/// Records as they are given, and the index of the first of each key.
#[derive(Drop)]
pub(crate) struct FirstBodies {
    pub(crate) records: Vec<Kept>,
    pub(crate) firsts: IndexMap<TaskKey, usize>,
}

impl FirstBodies {
    ghost use Rattle.std.specs.Prelude.{◌≡◌, [], find, IfOk, OnOk, OnErr, IsErrOf};
    ghost use Rattle.journal.specs.declared.fault.OpenFault.TheVariants.{NoMemory as no_memory};
    ghost use Rattle.journal.specs.Looks.{filled};
    ghost use Rattle.journal.specs.Bodies.{HasFirsts, records_in};
    ghost use Rattle.journal.specs.Keys.{is_of, given, IsBodyOf, Gains};
    ghost use Rattle.journal.specs.Steps.{entry_of};

    pub(crate) fn new(alloc: Global) -> FirstBodies
        ensures empty { records_in result ≡ [] }
        ensures firsts { HasFirsts result }
    {
        FirstBodies {
            records: Vec::new(alloc),
            firsts: IndexMap::new(alloc),
        }
    }

    // The body of the first record of a key, where there is one.
    fn body_at(&self, alloc: Global, key: TaskKey) -> Result<Option<Vec<u8>>, OpenFault>
        requires { HasFirsts self.now }
        ensures body { IfOk result (IsBodyOf (find (is_of key) (given (records_in self.now)))) }
        ensures refused { OnErr result (IsErrOf result no_memory) }
    {
        match self.firsts.get(&key) {
            Some(index) => Ok(Some(self.records[*index].body.as_slice().to_vec(alloc)?)),
            None => Ok(None),
        }
    }

    // A record, with the body that a short one stands for, where there is one.
    fn fill(&self, alloc: Global, kept: Kept) -> Result<Kept, OpenFault>
        requires { HasFirsts self.now }
        ensures filled { IfOk result (λ k. entry_of k ≡ filled (given (records_in self.now)) (entry_of kept)) }
        ensures at { IfOk result (λ k. k.at ≡ kept.at) }
        ensures refused { OnErr result (IsErrOf result no_memory) }
    {
        if kept.body.as_slice() != SHORT.as_slice() {
            return Ok(kept);
        }
        if kept.round == 0 {
            return Ok(kept);
        }
        let key = TaskKey {
            round: kept.round - 1,
            task: kept.task,
        };
        match self.body_at(alloc, key) {
            Ok(Some(body)) => Ok(Kept {
                round: kept.round,
                task: kept.task,
                body,
                at: kept.at,
            }),
            Ok(None) => Ok(kept),
            Err(fault) => Err(fault),
        }
    }

    /// Adds a record, with the body that a short one stands for.
    pub(crate) fn add(&mut self, alloc: Global, kept: Kept) -> Result<(), OpenFault>
        requires { HasFirsts self.old }
        ensures gains { OnOk result (Gains (records_in self.old) kept (records_in self.new)) }
        ensures firsts { OnOk result (HasFirsts self.new) }
        ensures refused { OnErr result (IsErrOf result no_memory) }
    {
        let kept = self.fill(alloc, kept)?;
        let key = TaskKey {
            round: kept.round,
            task: kept.task,
        };
        let index = self.records.len();
        self.records.push(kept)?;
        note(&mut self.firsts, key, index)
    }

    pub(crate) fn into_records(self) -> Vec<Kept>
        ensures { result.items ≡ records_in self }
    {
        let FirstBodies { records, firsts: _ } = self;
        records
    }
}
