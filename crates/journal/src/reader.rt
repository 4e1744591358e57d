use crate::reading::advance;
use crate::scan::Scan;
use crate::version::{VERSION_LENGTH, add_version, wants_version};
use crate::{Journal, Kept, OpenFault};
use std::alloc::Global;
use sv_outside::Disk;

/// How a reading stands.
#[derive(Clone, Copy)]
pub(crate) enum State {
    Going,
    /// It was refused, and answers that again.
    Refused(OpenFault),
    /// The first closed gate was reached.
    Ended,
}

/// A journal whose records are read, one after the other.
pub struct Reading<D: Disk> {
    pub(crate) disk: D,
    pub(crate) scan: Scan,
    pub(crate) state: State,
}

impl<D: Disk> Drop for Reading<D> {
    fn drop(self) {
        let Reading {
            disk: _,
            scan: _,
            state: _,
        } = self;
    }
}

impl<D: Disk> Reading<D> {
    ghost use Rattle.std.specs.Prelude.{◌≡◌, ◌⊎◌, ◌≤◌, ◌∷◌, [], List, ℕ, Ok, Err, None, true, false, IfOk, OnErr, IsErrOf};
    ghost use Rattle.sv_outside.specs.Outside.{Rose};
    ghost use Rattle.sv_outside.specs.Disk.{LeavesOnly};
    ghost use Rattle.journal.specs.declared.digests.Digests.{Digests as Digested};
    ghost use Rattle.journal.specs.declared.fault.OpenFault.{OpenFault as Faulted};
    ghost use Rattle.journal.specs.declared.fault.OpenFault.TheVariants.{Disk as disk_fault, NoMemory as no_memory};
    ghost use Rattle.journal.specs.Endings.{LeftByReading};
    ghost use Rattle.journal.specs.Format.{Entry};
    ghost use Rattle.journal.specs.Journals.{journal_disk, journal_gate, has_failed, IsJournal, IsSettled};
    ghost use Rattle.journal.specs.Lists.{versions, version_entry, with_version, wants_version as wants_it};
    ghost use Rattle.journal.specs.Nexts.{UnlessDone, PassesOn};
    ghost use Rattle.journal.specs.Openings.{handed_back, answer_of};
    ghost use Rattle.journal.specs.Settling.{HoldsEither};
    ghost use Rattle.journal.specs.Readings.{reading_disk, reading_scan, reading_version, reading_state, IsGoing, IsRefused, HasEnded, IsReading, EndsWith, NextIs, StateAfter};
    ghost use Rattle.journal.specs.Scans.{HasRead};
    ghost use Rattle.journal.specs.Steps.{IsStepAnswer};

    // The answer of a reading that goes on.
    fn go_on(&mut self, alloc: Global) -> Result<Option<Kept>, OpenFault>
        requires reading { IsReading D.told D.seen D.may_leave self.old }
        requires going { IsGoing self.old }
        ensures reads { D.told ≡ true → (digests : Digested) (entries : List Entry) → HasRead digests entries (reading_scan self.old) (D.seen (reading_disk self.old)) →
            NextIs D.told D.may_leave digests entries (D.seen (reading_disk self.old)) self.new result }
        ensures any_moment { D.told ≡ true → (digests : Digested) (entries : List Entry) → HasRead digests entries (reading_scan self.old) (D.seen (reading_disk self.old)) →
            LeavesOnly D.moment D.left_since (reading_disk self.old) (reading_disk self.new) (LeftByReading digests (D.seen (reading_disk self.old))) }
        ensures kept { UnlessDone result (D.seen (reading_disk self.new) ≡ D.seen (reading_disk self.old)) }
        ensures version { reading_version self.new ≡ reading_version self.old }
        ensures unchanged { IsErrOf result no_memory → reading_scan self.new ≡ reading_scan self.old }
        ensures further { PassesOn (reading_scan self.old) (reading_scan self.new) result }
        ensures size { (reading_scan self.new).size ≡ (reading_scan self.old).size }
        ensures state { StateAfter (reading_state self.new) result }
        ensures answer { IsStepAnswer result }
        ensures failed { IsErrOf result disk_fault → Rose (D.faults (reading_disk self.old)) (D.faults (reading_disk self.new)) }
        ensures later { D.faults (reading_disk self.old) ≤ D.faults (reading_disk self.new) }
        ensures reading { IsReading D.told D.seen D.may_leave self.new }
    {
        let mut scan = self.scan;
        match advance(alloc, &mut self.disk, &mut scan) {
            Ok(Some(kept)) => {
                self.scan = scan;
                Ok(Some(kept))
            }
            Ok(None) => {
                self.scan = scan;
                self.state = State::Ended;
                Ok(None)
            }
            Err(OpenFault::NoMemory) => Err(OpenFault::NoMemory),
            Err(fault) => {
                self.state = State::Refused(fault);
                Err(fault)
            }
        }
    }

    /// The next record that is no version record, or none at the first closed gate, where the image is cut. After
    /// `Disk` and `Damaged` it answers the same again, and after `None` also.
    pub fn next(&mut self, alloc: Global) -> Result<Option<Kept>, OpenFault>
        requires { IsReading D.told D.seen D.may_leave self.old }

        // The records come in order, up to the first closed gate; a damage is told where it is.
        ensures reads { D.told ≡ true → IsGoing self.old → (digests : Digested) (entries : List Entry) → HasRead digests entries (reading_scan self.old) (D.seen (reading_disk self.old)) →
            NextIs D.told D.may_leave digests entries (D.seen (reading_disk self.old)) self.new result }

        // A crash at any moment of the call leaves what was read, or an image that holds the same list.
        ensures any_moment { D.told ≡ true → IsGoing self.old → (digests : Digested) (entries : List Entry) → HasRead digests entries (reading_scan self.old) (D.seen (reading_disk self.old)) →
            LeavesOnly D.moment D.left_since (reading_disk self.old) (reading_disk self.new) (LeftByReading digests (D.seen (reading_disk self.old))) }
        ensures kept { UnlessDone result (D.seen (reading_disk self.new) ≡ D.seen (reading_disk self.old)) }
        ensures version { reading_version self.new ≡ reading_version self.old }
        ensures unchanged { IsGoing self.old → IsErrOf result no_memory → (reading_scan self.new ≡ reading_scan self.old) × IsGoing self.new }
        ensures state { IsGoing self.old → StateAfter (reading_state self.new) result }

        // What is read lies behind, also on a disk that tells nothing.
        ensures further { IsGoing self.old → PassesOn (reading_scan self.old) (reading_scan self.new) result }
        ensures size { (reading_scan self.new).size ≡ (reading_scan self.old).size }
        ensures refused_again { (fault : Faulted) → IsRefused fault self.old → (result ≡ Err fault) × (self.new ≡ self.old) }
        ensures ended_again { HasEnded self.old → (result ≡ Ok None) × (self.new ≡ self.old) }
        ensures answer { IsStepAnswer result }
        ensures failed { IsErrOf result disk_fault → IsRefused disk_fault self.old ⊎ Rose (D.faults (reading_disk self.old)) (D.faults (reading_disk self.new)) }
        ensures later { D.faults (reading_disk self.old) ≤ D.faults (reading_disk self.new) }
        ensures reading { IsReading D.told D.seen D.may_leave self.new }
    {
        match self.state {
            State::Going => self.go_on(alloc),
            State::Refused(fault) => Err(fault),
            State::Ended => Ok(None),
        }
    }

    /// The journal, once the end was reached. A database of version 1 without a version record gets one, unless its
    /// image would then be longer than 2,147,483,648 bytes. A refusal hands the disk back.
    pub fn into_journal(self, _alloc: Global) -> Result<Journal<D>, (D, OpenFault)>
        requires reading { IsReading D.told D.seen D.may_leave self }
        requires ended { HasEnded self }
        ensures settled { D.told ≡ true → (digests : Digested) (entries : List Entry) → EndsWith D.told D.may_leave digests entries self →
            IfOk result (λ j. IsSettled D.told D.may_leave digests (reading_version self) (with_version (wants_it (reading_version self) (versions entries) (reading_scan self).at) digests.current entries) j) }

        // A crash at any moment of the call leaves an image that holds the records, with the version record or without.
        ensures any_moment { D.told ≡ true → (digests : Digested) (entries : List Entry) → EndsWith D.told D.may_leave digests entries self →
            LeavesOnly D.moment D.left_since (reading_disk self) (handed_back journal_disk result) (HoldsEither digests entries (version_entry digests.current ∷ [])) }
        ensures not_failed { IfOk result (λ j. has_failed j ≡ false) }
        ensures gate { IfOk result (λ j. (reading_scan self).at ≤ journal_gate j) }
        ensures failed { IsErrOf (answer_of result) disk_fault → Rose (D.faults (reading_disk self)) (D.faults (handed_back journal_disk result)) }
        ensures refused { OnErr result (IsErrOf (answer_of result) disk_fault ⊎ IsErrOf (answer_of result) no_memory) }
        ensures later { D.faults (reading_disk self) ≤ D.faults (handed_back journal_disk result) }
        ensures journal { IfOk result (λ j. IsJournal D.told D.seen j) }
    {
        let Reading {
            mut disk,
            scan,
            state: _,
        } = self;
        if !wants_version(&scan) {
            return Ok(Journal {
                disk,
                gate: scan.at,
                failed: false,
            });
        }
        match add_version(&mut disk, scan.at, &scan.current) {
            Ok(()) => Ok(Journal {
                disk,
                gate: scan.at + VERSION_LENGTH,
                failed: false,
            }),
            Err(fault) => Err((disk, fault)),
        }
    }

    /// The disk, once the reading is done with.
    pub fn into_disk(self) -> D
        ensures { result ≡ reading_disk self }
    {
        let Reading {
            disk,
            scan: _,
            state: _,
        } = self;
        disk
    }
}
