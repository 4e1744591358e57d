ghost use Rattle.std.specs.Prelude.{◌≡◌, ℕ, ◌+◌, ◌<◌, ◌≤◌, ◌≢◌, ◌↔◌, ◌++◌, ◌∷◌, [], true, false, Some, length, slice_get, AllPairs, IsOk, IfOk, OnOk, OnErr, IfSome, OnSome, IfNone};
ghost use Rattle.sv_base.specs.Names.{has_name, with_name, number_in};

use crate::ids::FileId;
use crate::limits;
use indexmap::IndexSet;
use std::alloc::{AllocError, AllocFailed, Global};
use std::marker::Model;

/// How many names there can be.
pub const MOST_NAMES: usize = limits::NAMES;

/// Why a name gets no number.
#[derive(Clone, Copy, Debug, PartialEq, Eq)]
pub enum NamesFull {
    /// The name is new, and `MOST_NAMES` other names stand.
    Full,
    NoMemory,
}

impl From<AllocError> for NamesFull {
    ghost use Rattle.std.specs.Prelude.{◌≡◌};
    ghost use Rattle.sv_base.specs.declared.names.NamesFull.TheVariants as refusals;

    ghost from_gives = { λ _ e. e ≡ refusals.NoMemory };

    fn from(_error: AllocError) -> NamesFull {
        NamesFull::NoMemory
    }
}

impl<T: Drop> From<AllocFailed<T>> for NamesFull {
    ghost use Rattle.std.specs.Prelude.{◌≡◌};
    ghost use Rattle.sv_base.specs.declared.names.NamesFull.TheVariants as refusals;

    ghost from_gives = { λ _ e. e ≡ refusals.NoMemory };

    fn from(_error: AllocFailed<T>) -> NamesFull {
        NamesFull::NoMemory
    }
}

/// The presumed names of files (ISO/IEC 9899:1999, 6.10.4), each once, in the order in which they were first seen.
/// A name's number is its place in that order.
#[derive(Drop)]
pub struct Names {
    set: IndexSet<Vec<u8>>,
}

impl Model for Names {
    ghost use Rattle.std.specs.Prelude.{List, ℕ, map, length, ◌≤◌};
    ghost use Rattle.std.specs.Str.{bytes_eq};
    ghost use Rattle.indexmap.specs.IndexSet.{IsUnique};

    ghost Value = { List (List ℕ) };

    ghost view = { λ n. map (λ name. name.items) n.set.keys };

    ghost invariant = { λ n. IsUnique (λ a b. bytes_eq a.items b.items) n.set × (length n.set.keys ≤ 65535) };
}

impl Names {
    pub fn new(alloc: Global) -> Names
        ensures { result ≡ [] }
    {
        Names {
            set: IndexSet::new(alloc),
        }
    }

    /// The number of a name, which is the next one where the name is new.
    pub fn number_of(&mut self, alloc: Global, text: &[u8]) -> Result<FileId, NamesFull>
        ensures number { IfOk result (λ id. id.0 ≡ number_in self.old text.now) }
        ensures names { OnOk result (self.new ≡ with_name self.old text.now) }

        // A known name keeps its number, a new one is appended, and the numbers of the others stay.
        ensures known { has_name self.old text.now ≡ true → IsOk result × (self.new ≡ self.old) }
        ensures added { has_name self.old text.now ≡ false → OnOk result (self.new ≡ self.old ++ text.now ∷ []) }
        ensures text { IfOk result (λ id. slice_get self.new id.0 ≡ Some text.now) }
        ensures within { IfOk result (λ id. id.0 < length self.new) }
        ensures kept { (k : ℕ) → k < length self.old → slice_get self.new k ≡ slice_get self.old k }

        ensures full { (result ≡ Err NamesFull.Full) ↔ ((has_name self.old text.now ≡ false) × (length self.old ≡ MOST_NAMES)) }
        ensures err { OnErr result (self.new ≡ self.old) }
        ensures distinct { AllPairs (λ a b. a ≢ b) self.new }
        ensures room { length self.new ≤ MOST_NAMES }
    {
        if let Some(place) = self.place_of(text) {
            return Ok(FileId(place as u16));
        }
        let place = self.len();
        if place == MOST_NAMES {
            return Err(NamesFull::Full);
        }
        let name = Vec::from_slice(alloc, text)?;
        self.append(name)?;
        Ok(FileId(place as u16))
    }

    /// The name of a number that `number_of` gave.
    pub fn text(&self, id: FileId) -> &[u8]
        requires { id.0 < length self.now }
        ensures { slice_get self.now id.0 ≡ Some result.now }
    {
        self.set.as_slice()[id.0 as usize].as_slice()
    }

    /// How many names there are.
    pub fn len(&self) -> usize
        ensures { result ≡ length self.now }
    {
        self.set.len()
    }

    fn place_of(&self, text: &[u8]) -> Option<usize>
        ensures number { IfSome result (λ place. place ≡ number_in self.now text.now) }
        ensures known { OnSome result (has_name self.now text.now ≡ true) }
        ensures text { IfSome result (λ place. slice_get self.now place ≡ Some text.now) }
        ensures new { IfNone result (has_name self.now text.now ≡ false) }
        ensures next { IfNone result (number_in self.now text.now ≡ length self.now) }
        ensures distinct { AllPairs (λ a b. a ≢ b) self.now }
        ensures room { length self.now ≤ MOST_NAMES }
    {
        self.set.get_index_of(text)
    }

    fn append(&mut self, name: Vec<u8>) -> Result<(), NamesFull>
        requires new { has_name self.old name.items ≡ false }
        requires room { length self.old < MOST_NAMES }
        ensures ok { OnOk result (self.new ≡ self.old ++ name.items ∷ []) }
        ensures err { OnErr result ((result ≡ Err NamesFull.NoMemory) × (self.new ≡ self.old)) }
        ensures distinct { AllPairs (λ a b. a ≢ b) self.new }
    {
        self.set.insert(name)?;
        Ok(())
    }
}
