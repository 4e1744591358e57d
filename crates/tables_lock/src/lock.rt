ghost use Rattle.std.specs.Prelude.{◌≡◌, [], ◌∷◌, true, false, IfOk, IfErr};
ghost use Rattle.tables.specs.Sound.{IsSound};
ghost use Rattle.tables_lock.specs.Rule.{TakesAll, KeepsOpening, Ran, IsResting, IsHolding};

use crate::guard::{Copies, GivesBack, Guard, Takes, View};
use atomic_table::{Refused, Table};
use std::alloc::Global;
use std::snapshot::Snapshot;
use std::sync::Wait;
use sv_base::NoMemory;
use sv_outside::Disk;
use tables::{Opening, Tables, Work};

/// Tables that threads have one after another.
pub struct Lock<D: Disk, W: Work> {
    table: Table<Option<Tables<D, W>>, View<D, W>, Snapshot<Opening<D, W>>, Guard<D, W>, Global>,
    ghost sized: { (table.shared.table_id.words ≡ 1) × (table.shared.table_id.slots ≡ 1) },
}

/// What a thread takes the tables with.
pub struct Seat<D: Disk, W: Work> {
    seat: atomic_table::Seat<Option<Tables<D, W>>, View<D, W>>,
    ghost rests: { (seat.me.1 ≡ []) × (seat.me.0.holds ≡ false) },
}

impl<D: Disk, W: Work> Lock<D, W> {
    /// The tables under a lock, and the first seat.
    pub fn open(
        alloc: Global,
        tables: Tables<D, W>,
    ) -> Result<(Lock<D, W>, Seat<D, W>), (Tables<D, W>, NoMemory)>
        requires { IsSound D.told D.seen D.faults tables }
        ensures ok { IfOk result (λ r. (r.1.seat.table_id ≡ r.0.table.shared.table_id) × (r.1.seat.me.0.opening ≡ tables.opening)) }
        ensures err { IfErr result (λ r. r.0 ≡ tables) }
    {
        let opening = Snapshot::of(tables.opening());
        let Ok(mut slots) = Vec::with_capacity(alloc, 1) else {
            return Err((tables, NoMemory));
        };
        slots.push_reserved(Some(tables));
        match Table::new(alloc, &[0], slots, &opening) {
            Ok((table, seat)) => Ok((Lock { table }, Seat { seat })),
            Err(Refused { mut slots }) => match slots.pop() {
                Some(Some(tables)) => Err((tables, NoMemory)),
                _ => unreachable!(),
            },
        }
    }

    // Waits for the tables and moves them out.
    fn take<R: Wait>(
        &self,
        rt: &R,
        seat: &mut atomic_table::Seat<Option<Tables<D, W>>, View<D, W>>,
    ) -> Tables<D, W>
        requires own { seat.old.table_id ≡ self.now.table.shared.table_id }
        requires rests { IsResting seat.old.me }
        ensures own { seat.new.table_id ≡ seat.old.table_id }
        ensures holding { IsHolding seat.old.me.0.opening seat.new.me }
        ensures opening { result.opening ≡ seat.old.me.0.opening }
        ensures sound { IsSound D.told D.seen D.faults result }
    {
        for _ in rt.forever() {
            let found = self
                .table
                .shared
                .compare_exchange::<Takes<D, W>>(seat, 0, 0, 1);
            if found == 0 {
                let held = self.table.shared.exchange(seat, 0, None);
                match held {
                    Some(tables) => return tables,
                    None => unreachable!(),
                }
            }
            self.table.shared.park(rt, 0, 1);
        }
        unreachable!()
    }

    // Moves the tables back in, and lets the next seat take them.
    fn give_back(
        &self,
        seat: &mut atomic_table::Seat<Option<Tables<D, W>>, View<D, W>>,
        tables: Tables<D, W>,
    )
        requires own { seat.old.table_id ≡ self.now.table.shared.table_id }
        requires holding { IsHolding seat.old.me.0.opening seat.old.me }
        requires opening { tables.opening ≡ seat.old.me.0.opening }
        requires sound { IsSound D.told D.seen D.faults tables }
        ensures own { seat.new.table_id ≡ seat.old.table_id }
        ensures rests { IsResting seat.new.me }
        ensures opening { seat.new.me.0.opening ≡ seat.old.me.0.opening }
    {
        let empty = self.table.shared.exchange(seat, 0, Some(tables));
        drop(empty);
        self.table.shared.swap::<GivesBack>(seat, 0, 0);
        self.table.shared.wake_one(0);
    }

    /// Lends the tables to the step alone.
    pub fn with<R: Wait, T, F: FnOnce(&mut Tables<D, W>) -> T>(
        &self,
        rt: &R,
        seat: &mut Seat<D, W>,
        step: F,
    ) -> T
        requires own { seat.old.seat.table_id ≡ self.now.table.shared.table_id }
        requires takes { TakesAll (IsSound D.told D.seen D.faults) F.FnOnce step seat.old.seat.me.0.opening }
        requires keeps { KeepsOpening (IsSound D.told D.seen D.faults) F.FnOnce step seat.old.seat.me.0.opening }
        ensures own { seat.new.seat.table_id ≡ seat.old.seat.table_id }
        ensures opening { seat.new.seat.me.0.opening ≡ seat.old.seat.me.0.opening }
        ensures ran { Ran (IsSound D.told D.seen D.faults) F.FnOnce step seat.old.seat.me.0.opening result }
    {
        let mut tables = self.take(rt, &mut seat.seat);
        let answer = step(&mut tables);
        self.give_back(&mut seat.seat, tables);
        answer
    }

    /// A seat of the caller's opening, for another thread. It takes no memory.
    pub fn split(&self, _alloc: Global, seat: &mut Seat<D, W>) -> Result<Seat<D, W>, NoMemory>
        requires own { seat.old.seat.table_id ≡ self.now.table.shared.table_id }
        ensures own { seat.new.seat.table_id ≡ seat.old.seat.table_id }
        ensures opening { seat.new.seat.me.0.opening ≡ seat.old.seat.me.0.opening }
        ensures given { IfOk result (λ other. (other.seat.table_id ≡ seat.old.seat.table_id) × (other.seat.me.0.opening ≡ seat.old.seat.me.0.opening)) }
    {
        let other = self.table.shared.split_seat::<Copies>(&mut seat.seat);
        Ok(Seat { seat: other })
    }

    /// Takes the tables for good.
    pub fn close<R: Wait>(self, rt: &R, seat: Seat<D, W>) -> Tables<D, W>
        requires own { seat.seat.table_id ≡ self.table.shared.table_id }
        ensures opening { result.opening ≡ seat.seat.me.0.opening }
        ensures sound { IsSound D.told D.seen D.faults result }
    {
        let mut seat = seat.into_raw();
        let tables = self.take(rt, &mut seat);
        let Lock { table } = self;
        drop(table);
        tables
    }
}

impl<D: Disk, W: Work> Seat<D, W> {
    fn into_raw(self) -> atomic_table::Seat<Option<Tables<D, W>>, View<D, W>>
        ensures same { result ≡ self.seat }
        ensures rests { (result.me.1 ≡ []) × (result.me.0.holds ≡ false) }
    {
        let Self { seat } = self;
        seat
    }
}

impl<D: Disk, W: Work> Drop for Seat<D, W> {
    fn drop(self) {
        let Self { seat } = self;
        drop(seat);
    }
}

impl<D: Disk, W: Work> Drop for Lock<D, W> {
    fn drop(self) {
        let Self { table } = self;
        drop(table);
    }
}
