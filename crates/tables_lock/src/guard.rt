//! The rule of the lock: at every moment all seats know one opening, and either the tables of that opening are at home, or
//! one seat holds them.
use atomic_table::{Play, Split, TableRule};
use std::marker::PhantomData;
use std::snapshot::Snapshot;
use sv_outside::Disk;
use tables::{Opening, Tables, Work};

/// What a seat knows. No value of it is made.
pub struct View<D, W> {
    pub opening: Opening<D, W>,
    pub holds: bool,
}

/// What holds of the word and the slot.
pub(crate) struct Guard<D: Disk, W: Work> {
    marker: PhantomData<(D, W)>,
}

impl<D: Disk, W: Work> TableRule<Option<Tables<D, W>>, View<D, W>, Snapshot<Opening<D, W>>>
    for Guard<D, W> {
    ghost use Rattle.tables_lock.specs.Rule.{IsKept, rests};
    ghost use Rattle.tables.specs.Sound.{IsSound};

    ghost holds = { λ key. IsKept (IsSound D.told D.seen D.faults) };

    ghost first = { λ key. rests key.value };
}

/// The exchange from 0 to 1, which takes the tables where it wins.
pub(crate) struct Takes<D: Disk, W: Work> {
    marker: PhantomData<(D, W)>,
}

impl<D: Disk, W: Work> Play<Option<Tables<D, W>>, View<D, W>> for Takes<D, W> {
    ghost use Rattle.tables_lock.specs.Rule.{Taken};
    ghost use Rattle.tables.specs.Sound.{IsSound};

    ghost then = { Taken (IsSound D.told D.seen D.faults) };
}

/// The swap to 0, which gives the tables back.
pub(crate) struct GivesBack;

impl<D: Disk, W: Work> Play<Option<Tables<D, W>>, View<D, W>> for GivesBack {
    ghost use Rattle.tables_lock.specs.Rule.{GivenBack};
    ghost use Rattle.tables.specs.Sound.{IsSound};

    ghost then = { GivenBack (IsSound D.told D.seen D.faults) };
}

/// A seat that is split off has the opening of the other, and holds nothing.
pub(crate) struct Copies;

impl<D, W> Split<View<D, W>> for Copies {
    ghost use Rattle.tables_lock.specs.Rule.{rests};

    ghost left = { λ v. v };

    ghost right = { λ v. rests v.opening };
}
