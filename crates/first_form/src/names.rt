ghost use Rattle.std.specs.Prelude.{◌≡◌, ◌++◌, ◌∷◌, [], true, false, IfOk, OnOk, OnErr, position};
ghost use Rattle.std.specs.Prelude.{IfSome, IfNone, MatchOption};
ghost use Rattle.std.specs.List.{list_any};
ghost use Rattle.std.specs.Str.{bytes_eq};
ghost use Rattle.first_form.specs.Form.{names};
ghost use Rattle.first_form.specs.computed.Reading.{are_distinct};

use crate::program::Array;
use indexmap::IndexSet;
use std::alloc::{AllocError, AllocFailed, Global};
use std::marker::Model;

/// The names of the arrays, in the order of their numbers.
#[derive(Drop)]
pub(crate) struct Names<'a> {
    set: IndexSet<&'a [u8]>,
}

impl<'a> Model for Names<'a> {
    ghost use Rattle.std.specs.Prelude.{ℕ, List, map};

    ghost Value = { List (List ℕ) };

    ghost view = { λ n. map (λ key. key.now) n.set.keys };
}

impl<'a> Names<'a> {
    pub(crate) fn new(alloc: Global) -> Names<'a>
        ensures { result ≡ [] }
    {
        Names {
            set: IndexSet::new(alloc),
        }
    }

    /// Adds a name at the end, and says that it is new.
    pub(crate) fn add(&mut self, name: &'a [u8]) -> Result<bool, AllocFailed<&'a [u8]>>
        ensures added { IfOk result (λ is_new. is_new ≡ true → self.new ≡ self.old ++ name.now ∷ []) }
        ensures new { IfOk result (λ is_new. is_new ≡ true → list_any (bytes_eq name.now) self.old ≡ false) }
        ensures known { IfOk result (λ is_new. is_new ≡ false → list_any (bytes_eq name.now) self.old ≡ true) }
    {
        let (_, is_new) = self.set.insert_full(name)?;
        Ok(is_new)
    }

    /// The number of the array of that name.
    pub(crate) fn number_of(&self, name: &[u8]) -> Option<usize>
        ensures { result ≡ position (bytes_eq name.now) self.now }
    {
        self.set.get_index_of(name)
    }
}

/// The names of the arrays; nothing where two have one name.
pub(crate) fn names_of<'a>(
    alloc: Global,
    arrays: &'a [Array],
) -> Result<Option<Names<'a>>, AllocFailed<&'a [u8]>>
    ensures distinct { IfOk result (λ found. MatchOption found (are_distinct (names arrays.now) ≡ false) (λ n. (n ≡ names arrays.now) × (are_distinct (names arrays.now) ≡ true))) }
{
    let mut names = Names::new(alloc);
    for array in arrays {
        if !names.add(array.name.as_slice())? {
            return Ok(None);
        }
    }
    Ok(Some(names))
}
