use crate::append::append_at;
use crate::opening::begin;
use crate::reader::State;
use crate::record::LIMIT;
use crate::{Digests, OpenFault, Piece, Reading};
use std::alloc::Global;
use sv_base::DiskFailed;
use sv_outside::Disk;

/// Why there is no room for a record.
#[derive(Clone, Copy, Debug, PartialEq, Eq)]
pub enum NoRoom {
    /// The image would have that many bytes with it, and may have 2,147,483,648.
    Full { size: u64 },
    NoMemory,
}

/// A journal whose records all stand behind open gates, with a closed gate after them.
pub struct Journal<D: Disk> {
    pub(crate) disk: D,
    pub(crate) gate: u64,
    pub(crate) failed: bool,
}

impl<D: Disk> Drop for Journal<D> {
    fn drop(self) {
        let Journal {
            disk: _,
            gate: _,
            failed: _,
        } = self;
    }
}

impl<D: Disk> Journal<D> {
    ghost use Rattle.std.specs.Prelude.{◌≡◌, ◌⊎◌, ◌≤◌, ◌<◌, ◌^◌, ◌+◌, ◌-◌, ◌++◌, [], ◌∷◌, List, ℕ, true, false, length, OnOk, OnErr, IfOk, IsErr, IsErrOf};
    ghost use Rattle.sv_outside.specs.Outside.{Rose};
    ghost use Rattle.sv_outside.specs.Disk.{IsStill, LeavesOnly};
    ghost use Rattle.journal.specs.Format.{Entry, IsBatch};
    ghost use Rattle.journal.specs.declared.fault.OpenFault.TheVariants.{Disk as disk_fault};
    ghost use Rattle.journal.specs.Openings.{Opens, BecomesOpen, LeftByOpening, RefusesContent, IsOpeningAnswer, handed_back, answer_of};
    ghost use Rattle.journal.specs.Readings.{reading_disk, reading_scan, IsGoing, IsReading};
    ghost use Rattle.journal.specs.Scans.{HasRead};
    ghost use Rattle.journal.specs.Gates.{HasReserved};
    ghost use Rattle.journal.specs.Settling.{ArePlain, HoldsEither};
    ghost use Rattle.journal.specs.declared.digests.Digests.{Digests as Digested};
    ghost use Rattle.journal.specs.declared.digests.Version.{Version as Named};
    ghost use Rattle.journal.specs.Pieces.{piece_bytes};
    ghost use Rattle.journal.specs.Journals.{journal_disk, journal_gate, has_failed, IsJournal, IsSettled, Reserves, ReservesFor};

    /// Reads the header of a journal, or begins one where there is none yet, and stops before the first record. A
    /// refusal hands the disk back.
    pub fn open(_alloc: Global, disk: D, digests: &Digests) -> Result<Reading<D>, (D, OpenFault)>
        ensures opens { D.told ≡ true → Opens digests.now (D.seen disk) (answer_of result) }
        ensures begun { D.told ≡ true → IfOk result (λ r. HasRead digests.now [] (reading_scan r) (D.seen (reading_disk r))) }
        ensures going { IfOk result (λ r. IsGoing r) }
        ensures becomes { D.told ≡ true → OnOk result (BecomesOpen digests.now (D.seen disk) (D.seen (handed_back reading_disk result))) }

        // A crash at any moment of the call leaves what one before it could leave, or a journal without records where
        // the header was not finished.
        ensures any_moment { D.told ≡ true → LeavesOnly D.moment D.left_since disk (handed_back reading_disk result) (LeftByOpening digests.now (D.seen disk) (D.may_leave disk)) }
        ensures kept { RefusesContent (answer_of result) → D.seen (handed_back reading_disk result) ≡ D.seen disk }
        ensures failed { IsErrOf (answer_of result) disk_fault → Rose (D.faults disk) (D.faults (handed_back reading_disk result)) }
        ensures later { D.faults disk ≤ D.faults (handed_back reading_disk result) }
        ensures answer { IsOpeningAnswer (answer_of result) }
        ensures reading { IfOk result (λ r. IsReading D.told D.seen D.may_leave r) }
    {
        let mut disk = disk;
        match begin(&mut disk, digests) {
            Ok(scan) => Ok(Reading {
                disk,
                scan,
                state: State::Going,
            }),
            Err(fault) => Err((disk, fault)),
        }
    }

    /// The length that the image would have with a record more, with a body of so many bytes.
    pub fn size_with(&self, length: u64) -> u64
        requires journal { IsJournal D.told D.seen self.now }
        requires length { length < 2 ^ 64 - 2 ^ 32 }
        ensures { result ≡ journal_gate self.now + length + 14 }
    {
        self.gate + length + 14
    }

    /// Makes room for a record with a body of so many bytes.
    pub fn reserve(&mut self, length: u32) -> Result<(), NoRoom>
        requires { IsJournal D.told D.seen self.old }
        ensures reserved { Reserves (journal_gate self.old) length (D.room (journal_disk self.new)) result }
        ensures same { (journal_gate self.new ≡ journal_gate self.old) × (has_failed self.new ≡ has_failed self.old) }
        ensures seen { D.seen (journal_disk self.new) ≡ D.seen (journal_disk self.old) }
        ensures still { IsStill (D.moment (journal_disk self.old)) (D.moment (journal_disk self.new)) (D.left_since (journal_disk self.old)) (D.left_since (journal_disk self.new)) (D.may_leave (journal_disk self.old)) (D.may_leave (journal_disk self.new)) }
        ensures faults { D.faults (journal_disk self.new) ≡ D.faults (journal_disk self.old) }
        ensures journal { IsJournal D.told D.seen self.new }
    {
        let size = self.gate + 14 + length as u64;
        if size > LIMIT {
            return Err(NoRoom::Full { size });
        }
        match self.disk.reserve(size, 4, length as u64 + 14) {
            Ok(()) => Ok(()),
            Err(_) => Err(NoRoom::NoMemory),
        }
    }

    /// Makes room for records.
    pub fn reserve_for(&mut self, piece: &Piece) -> Result<(), NoRoom>
        requires { IsJournal D.told D.seen self.old }
        ensures reserved { ReservesFor (journal_gate self.old) (length (piece_bytes piece.now)) (D.room (journal_disk self.new)) result }
        ensures same { (journal_gate self.new ≡ journal_gate self.old) × (has_failed self.new ≡ has_failed self.old) }
        ensures seen { D.seen (journal_disk self.new) ≡ D.seen (journal_disk self.old) }
        ensures still { IsStill (D.moment (journal_disk self.old)) (D.moment (journal_disk self.new)) (D.left_since (journal_disk self.old)) (D.left_since (journal_disk self.new)) (D.may_leave (journal_disk self.old)) (D.may_leave (journal_disk self.new)) }
        ensures faults { D.faults (journal_disk self.new) ≡ D.faults (journal_disk self.old) }
        ensures journal { IsJournal D.told D.seen self.new }
    {
        let length = piece.bytes.len() as u64;
        let size = self.gate + 1 + length;
        if size > LIMIT {
            return Err(NoRoom::Full { size });
        }
        match self.disk.reserve(size, 4, length + 1) {
            Ok(()) => Ok(()),
            Err(_) => Err(NoRoom::NoMemory),
        }
    }

    /// Adds records, for which there is room, all of them or none. After `DiskFailed` they may be there or not, and every
    /// further call answers the same.
    pub fn append(&mut self, piece: &Piece) -> Result<(), DiskFailed>
        requires journal { IsJournal D.told D.seen self.old }
        requires room { HasReserved (D.room (journal_disk self.old)) (journal_gate self.old) (length (piece_bytes piece.now)) }

        // A crash at any moment of the call leaves an image that holds the records from before it, with all of the new
        // ones or with none.
        ensures any_moment { D.told ≡ true → has_failed self.old ≡ false → (digests : Digested) (version : Named) (entries batch : List Entry) →
            IsBatch batch (piece_bytes piece.now) → ArePlain batch → IsSettled D.told D.may_leave digests version entries self.old →
            LeavesOnly D.moment D.left_since (journal_disk self.old) (journal_disk self.new) (HoldsEither digests entries batch) }

        // At Ok each crash leaves them.
        ensures appended { D.told ≡ true → (digests : Digested) (version : Named) (entries batch : List Entry) →
            IsBatch batch (piece_bytes piece.now) → ArePlain batch → IsSettled D.told D.may_leave digests version entries self.old →
            OnOk result (IsSettled D.told D.may_leave digests version (entries ++ batch) self.new) }
        ensures goes_on { OnOk result (has_failed self.new ≡ false) }
        ensures gate { OnOk result (journal_gate self.new ≡ journal_gate self.old + length (piece_bytes piece.now)) }
        ensures gate_stays { OnErr result (journal_gate self.new ≡ journal_gate self.old) }
        ensures failed { OnErr result ((has_failed self.old ≡ true) ⊎ Rose (D.faults (journal_disk self.old)) (D.faults (journal_disk self.new))) }
        ensures fails_on { has_failed self.old ≡ true → IsErr result × (self.new ≡ self.old) }
        ensures fails { OnErr result (has_failed self.new ≡ true) }
        ensures later { D.faults (journal_disk self.old) ≤ D.faults (journal_disk self.new) }
        ensures journal { IsJournal D.told D.seen self.new }
    {
        if self.failed {
            return Err(DiskFailed);
        }
        match append_at(&mut self.disk, self.gate, &piece.bytes) {
            Ok(()) => {
                self.gate += piece.bytes.len() as u64;
                Ok(())
            }
            Err(error) => {
                self.failed = true;
                Err(error)
            }
        }
    }

    /// The disk, once the journal is done with.
    pub fn into_disk(self) -> D
        ensures { result ≡ journal_disk self }
    {
        let Journal {
            disk,
            gate: _,
            failed: _,
        } = self;
        disk
    }
}
