ghost use Rattle.std.specs.Prelude.{◌≡◌, true, false};
ghost use Rattle.lease_table.specs.Machine.{IsLeasedBy};

use crate::batch::{Batch, answered};
use crate::mark::MARK;
use crate::reopening::read_back;
use crate::rounds::Rounds;
use crate::{Opening, Publication, Publish, Stop, Turn, Work};
use journal::{Digests, Journal, LIMIT, NoRoom, OpenFault, Piece};
use lease_table::{Abandoned, Claimed, Standing};
use std::alloc::Global;
use std::snapshot::Snapshot;
use sv_base::NoMemory;
use sv_outside::Disk;

/// A work as far as it was done: its rounds, and the journal that outlives a crash.
pub struct Tables<D: Disk, W: Work> {
    opening: Opening<D, W>,
    rounds: Rounds<W::Basis>,
    journal: Journal<D>,
}

impl<D: Disk, W: Work> Drop for Tables<D, W> {
    fn drop(self) {
        let Tables {
            opening: _,
            rounds: _,
            journal: _,
        } = self;
    }
}

// Whether the task stands leased by this ticket.
fn is_leased_by(standing: Option<Standing>, ticket: u64) -> bool
    ensures leased { result ≡ true → IsLeasedBy ticket standing }
    ensures other { result ≡ false → IsLeasedBy ticket standing → ⊥ }
{
    match standing {
        Some(Standing::Leased { ticket: by, .. }) => by == ticket,
        _ => false,
    }
}

impl<D: Disk, W: Work> Tables<D, W> {
    ghost use Rattle.std.specs.Prelude.{◌≡◌, ◌≢◌, ◌≤◌, ◌<◌, ◌^◌, ◌+◌, ◌*◌, ◌++◌, ◌∷◌, [], List, ℕ, true, false, length, All, Some, IfOk, IfErr, OnOk, OnErr, slice_get};
    ghost use Rattle.std.specs.Option.{option_copied};
    ghost use Rattle.lease_table.specs.Machine.{IsLeasedBy, Claims, Abandons, Expires};
    ghost use Rattle.lease_table.specs.Standings.{AllDone, SomeNotDone};
    ghost use Rattle.sv_outside.specs.Outside.{Rose};
    ghost use Rattle.journal.specs.Format.{Entry, IsBatch};
    ghost use Rattle.journal.specs.Journals.{journal_disk, journal_gate, has_failed};
    ghost use Rattle.journal.specs.Pieces.{piece_bytes};
    ghost use Rattle.journal.specs.Settling.{ArePlain};
    ghost use Rattle.tables.specs.Replays.{IsReplayed};
    ghost use Rattle.tables.specs.Rounds.{Follows, claims_of, abandons_of, expires_of};
    ghost use Rattle.tables.specs.Shelves.{artifact_at};
    ghost use Rattle.tables.specs.Sound.{IsSound, machine_of, shelf_of, events_of, journal_of, is_repeated, record_body, record_size, StopsAt, HasCause, Publishes, FollowsRound};
    ghost use Rattle.tables.specs.Stored.{record_of, records_of, answered_by, is_stored, is_failed, written_by, HasFailed, Lasts, AllOrNone};
    ghost use Rattle.tables.specs.Batches.{IsBatchOf};
    ghost use Rattle.tables.specs.Works.{IsNoMark};

    /// Opens a database, and takes what was published before. A refusal hands the disk back.
    pub fn open(
        alloc: Global,
        disk: D,
        work: &W,
        digests: &Digests,
        term: u64,
    ) -> Result<Tables<D, W>, (D, OpenFault)>
        ensures sound { IfOk result (λ t. IsSound D.told D.seen D.faults t) }
        ensures work { IfOk result (λ t. t.opening.work.value ≡ work.now) }
        ensures disk { IfOk result (λ t. t.opening.disk.value ≡ disk) }
        ensures term { IfOk result (λ t. t.opening.term ≡ term) }
        ensures digests { IfOk result (λ t. t.opening.digests ≡ digests.now) }

        // The tables hold what the records of the image lead to, in order, and each crash leaves those records.
        ensures replayed { D.told ≡ true → IfOk result (λ t. IsReplayed D.told D.may_leave digests.now (D.seen disk) t) }
        ensures failed { IfErr result (λ refused. refused.1 ≡ OpenFault.Disk → Rose (D.faults disk) (D.faults refused.0)) }
    {
        let opening = Opening {
            digests: *digests,
            term,
            work: Snapshot::of(work),
            disk: Snapshot::of(&disk),
        };
        let mut reading = match Journal::open(alloc, disk, digests) {
            Ok(reading) => reading,
            Err(refused) => return Err(refused),
        };
        let rounds = match read_back(alloc, &mut reading, work) {
            Ok(rounds) => rounds,
            Err(fault) => return Err((reading.into_disk(), fault)),
        };
        match reading.into_journal(alloc) {
            Ok(journal) => Ok(Tables {
                opening,
                rounds,
                journal,
            }),
            Err(refused) => Err(refused),
        }
    }

    /// What the tables were opened with.
    pub fn opening(&self) -> &Opening<D, W>
        ensures { result.now ≡ self.now.opening }
    {
        &self.opening
    }

    /// The number of the current round, from 0.
    pub fn round(&self) -> u32
        ensures { result ≡ (machine_of self.now).round }
    {
        self.rounds.round()
    }

    /// How many tasks the round has.
    pub fn tasks(&self) -> u32
        ensures { result ≡ length (machine_of self.now).tasks }
    {
        self.rounds.tasks()
    }

    /// Whether each task of the round is done.
    pub fn round_done(&self) -> bool
        ensures all { result ≡ true → AllDone (machine_of self.now).tasks }
        ensures some { result ≡ false → SomeNotDone (machine_of self.now).tasks }
    {
        self.rounds.is_round_done()
    }

    /// Whether the last round was ended.
    pub fn is_finished(&self) -> bool
        ensures { result ≡ (machine_of self.now).ended }
    {
        self.rounds.is_ended()
    }

    /// The artifact of a task, none where the round is not kept or the task is not done.
    pub fn artifact(&self, round: u32, task: u32) -> Option<&[u8]>
        ensures { option_copied result ≡ artifact_at (shelf_of self.now) round task }
    {
        self.rounds.shelf().get(round, task)
    }

    /// Leases the least task that is free or whose lease has run out.
    pub fn claim(&mut self, worker: u32, now: u64) -> Result<Claimed, NoMemory>
        requires { IsSound D.told D.seen D.faults self.old }
        ensures sound { IsSound D.told D.seen D.faults self.new }
        ensures opening { self.new.opening ≡ self.old.opening }
        ensures step { IfOk result (λ claimed. Claims now self.old.opening.term (machine_of self.old) claimed (machine_of self.new)) }
        ensures events { IfOk result (λ claimed. events_of self.new ≡ events_of self.old ++ claims_of now self.old.opening.term claimed) }
        ensures shelf { shelf_of self.new ≡ shelf_of self.old }
        ensures journal { journal_of self.new ≡ journal_of self.old }
        ensures err { OnErr result (self.new ≡ self.old) }
    {
        self.rounds.claim(worker, now, self.opening.term)
    }

    /// The leave to compute a task, by the ticket that leases it.
    pub fn turn(&self, task: u32, ticket: u64) -> Turn
        requires { IsLeasedBy ticket (slice_get (machine_of self.now).tasks task) }
        ensures round { result.round ≡ (machine_of self.now).round }
        ensures task { result.task ≡ task }
        ensures ticket { result.ticket ≡ ticket }
    {
        Turn::new(self.rounds.round(), task, ticket)
    }

    /// What the computation of a task needs.
    pub fn view(&self, alloc: Global, work: &W, task: u32) -> Result<W::View, NoMemory>
        requires work { self.now.opening.work.value ≡ work.now }
        requires task { task < length (machine_of self.now).tasks }
    {
        work.view(
            alloc,
            self.rounds.round(),
            task,
            self.rounds.basis(),
            self.rounds.shelf(),
        )
    }

    // Whether the task has this artifact in the round before.
    fn is_repeated(&self, round: u32, task: u32, artifact: &[u8]) -> bool
        ensures { result ≡ is_repeated (shelf_of self.now) round task artifact.now }
    {
        if round == 0 {
            return false;
        }
        match self.rounds.shelf().get(round - 1, task) {
            Some(before) => before == artifact,
            None => false,
        }
    }

    // The body of the record of an artifact.
    fn body<'a>(&self, round: u32, task: u32, artifact: &'a [u8]) -> &'a [u8]
        ensures { result.now ≡ record_body (shelf_of self.now) round task artifact.now }
    {
        if self.is_repeated(round, task, artifact) {
            MARK.as_slice()
        } else {
            artifact
        }
    }

    // Writes records, for which there may be no room.
    fn write_piece(&mut self, piece: &Piece) -> Result<(), Stop>
        requires { IsSound D.told D.seen D.faults self.old }
        ensures sound { IsSound D.told D.seen D.faults self.new }
        ensures gate { OnOk result (journal_gate (journal_of self.new) ≡ journal_gate (journal_of self.old) + length (piece_bytes piece.now)) }
        ensures whole { 13 ≤ length (piece_bytes piece.now) }
        ensures same { (self.new.opening ≡ self.old.opening) × (self.new.rounds ≡ self.old.rounds) }
        ensures gate_stays { OnErr result (journal_gate (journal_of self.new) ≡ journal_gate (journal_of self.old)) }
        ensures stops { IfErr result (StopsAt (journal_gate (journal_of self.old) + 1 + length (piece_bytes piece.now))) }
        ensures lasts { (batch : List Entry) → IsBatch batch (piece_bytes piece.now) → ArePlain batch →
            OnOk result (Lasts D.told D.may_leave batch (journal_of self.old) (journal_of self.new)) }
        ensures any_moment { (batch : List Entry) → IsBatch batch (piece_bytes piece.now) → ArePlain batch →
            AllOrNone D.told D.moment D.left_since D.may_leave batch (journal_of self.old) (journal_of self.new) }
        ensures stays { IfErr result (λ stop. stop ≢ Stop.Disk → Lasts D.told D.may_leave [] (journal_of self.old) (journal_of self.new)) }
        ensures nothing { IfErr result (λ stop. stop ≢ Stop.Disk → AllOrNone D.told D.moment D.left_since D.may_leave [] (journal_of self.old) (journal_of self.new)) }
        ensures failed { IfErr result (λ stop. stop ≡ Stop.Disk → HasFailed D.faults (journal_of self.old) (journal_of self.new)) }
        ensures fails { IfErr result (λ stop. stop ≡ Stop.Disk → has_failed (journal_of self.new) ≡ true) }
    {
        let _length = piece.len();
        match self.journal.reserve_for(piece) {
            Ok(()) => (),
            Err(NoRoom::Full { size }) => return Err(Stop::Full { size }),
            Err(NoRoom::NoMemory) => return Err(Stop::NoMemory),
        }
        match self.journal.append(piece) {
            Ok(()) => Ok(()),
            Err(_) => Err(Stop::Disk),
        }
    }

    // Writes the record of an artifact.
    fn write(&mut self, alloc: Global, round: u32, task: u32, artifact: &[u8]) -> Result<(), Stop>
        requires sound { IsSound D.told D.seen D.faults self.old }
        requires round { round ≡ (machine_of self.old).round }
        ensures sound { IsSound D.told D.seen D.faults self.new }
        ensures gate { OnOk result ((journal_gate (journal_of self.new) + 1 ≡ record_size self.old round task artifact.now) × (record_size self.old round task artifact.now ≤ 2 ^ 31)) }
        ensures stops { IfErr result (StopsAt (record_size self.old round task artifact.now)) }
        ensures same { (self.new.opening ≡ self.old.opening) × (self.new.rounds ≡ self.old.rounds) }
        ensures lasts { OnOk result (Lasts D.told D.may_leave (record_of (shelf_of self.old) round task artifact.now ∷ []) (journal_of self.old) (journal_of self.new)) }
        ensures any_moment { AllOrNone D.told D.moment D.left_since D.may_leave (record_of (shelf_of self.old) round task artifact.now ∷ []) (journal_of self.old) (journal_of self.new) }
        ensures failed { IfErr result (λ stop. stop ≡ Stop.Disk → HasFailed D.faults (journal_of self.old) (journal_of self.new)) }
        ensures fails { IfErr result (λ stop. stop ≡ Stop.Disk → has_failed (journal_of self.new) ≡ true) }
    {
        let body = self.body(round, task, artifact);
        let size = self.journal.size_with(body.len() as u64);
        if size > LIMIT {
            return Err(Stop::Full { size });
        }
        let piece = Piece::new(alloc, round, task, body)?;
        self.write_piece(&piece)
    }

    /// Stores the artifact of a task that this ticket leases. It is on the disk once the answer is `Stored`.
    pub fn publish(
        &mut self,
        alloc: Global,
        work: &W,
        round: u32,
        task: u32,
        ticket: u64,
        artifact: Vec<u8>,
    ) -> Publish
        requires sound { IsSound D.told D.seen D.faults self.old }
        requires work { self.old.opening.work.value ≡ work.now }
        requires artifact { IsNoMark artifact.items }
        ensures sound { IsSound D.told D.seen D.faults self.new }
        ensures opening { self.new.opening ≡ self.old.opening }
        ensures publishes { Publishes round task ticket artifact.items self.old result self.new }

        // Once the answer is `Stored` each crash leaves the record of the artifact behind those before, and at any moment of the
        // call it leaves that record or not.
        ensures lasts { result ≡ Publish.Stored → Lasts D.told D.may_leave (record_of (shelf_of self.old) round task artifact.items ∷ []) (journal_of self.old) (journal_of self.new) }
        ensures any_moment { AllOrNone D.told D.moment D.left_since D.may_leave (record_of (shelf_of self.old) round task artifact.items ∷ []) (journal_of self.old) (journal_of self.new) }
        ensures failed { result ≡ Publish.Disk → HasFailed D.faults (journal_of self.old) (journal_of self.new) }
        ensures causes { HasCause (has_failed (journal_of self.new)) result }
    {
        let _ = work;
        let standing = self.rounds.found(round, task);
        if !is_leased_by(standing, ticket) {
            return Publish::Lost {
                round: self.rounds.round(),
                standing,
            };
        }
        match self.write(alloc, round, task, &artifact) {
            Ok(()) => {
                self.rounds.publish(round, task, ticket, artifact);
                Publish::Stored
            }
            Err(Stop::Disk) => Publish::Disk,
            Err(Stop::Full { size }) => Publish::Full { size },
            Err(Stop::NoMemory) => Publish::NoMemory,
        }
    }

    // Answers a publication, or adds its record to the batch.
    fn decide(
        &self,
        alloc: Global,
        round: u32,
        batch: &mut Batch,
        publication: Publication,
    ) -> Result<(), NoMemory>
        requires { IsSound D.told D.seen D.faults self.now }
        ensures { (done : List Publication) →
            IsBatchOf (shelf_of self.now) round done batch.old.piece batch.old.taken.items batch.old.answers.items →
            OnOk result (IsBatchOf (shelf_of self.now) round (done ++ publication ∷ []) batch.new.piece batch.new.taken.items batch.new.answers.items) }
    {
        let task = publication.task;
        let ticket = publication.ticket;
        let lost = match self.rounds.found(round, task) {
            Some(Standing::Leased { ticket: by, .. }) if by == ticket => batch
                .ticket_of(task)
                .map(|ticket| Some(Standing::Done { ticket })),
            standing => Some(standing),
        };
        if let Some(standing) = lost {
            let round = self.rounds.round();
            batch.refuse(Publish::Lost { round, standing })?;
            return Ok(());
        }
        let body = self.body(round, task, &publication.artifact);
        let size = self.journal.size_with(batch.len() + body.len() as u64);
        if size > LIMIT {
            batch.refuse(Publish::Full { size })?;
            return Ok(());
        }
        batch.write(alloc, round, task, body)?;
        batch.take(publication)?;
        Ok(())
    }

    // Answers publications, or adds their records to a batch.
    fn decide_all(
        &self,
        alloc: Global,
        round: u32,
        publications: Vec<Publication>,
    ) -> Result<Batch, NoMemory>
        requires { IsSound D.told D.seen D.faults self.now }
        ensures { IfOk result (λ b. IsBatchOf (shelf_of self.now) round publications.items b.piece b.taken.items b.answers.items) }
    {
        let mut batch = Batch::new(alloc);
        for publication in publications {
            self.decide(alloc, round, &mut batch, publication)?;
        }
        Ok(batch)
    }

    // Puts an artifact whose record was written.
    fn put(&mut self, round: u32, publication: Publication)
        requires sound { IsSound D.told D.seen D.faults self.old }
        requires written { 13 * ((machine_of self.old).round + 1) ≤ journal_gate (journal_of self.old) }
        ensures sound { IsSound D.told D.seen D.faults self.new }
        ensures opening { self.new.opening ≡ self.old.opening }
        ensures journal { self.new.journal ≡ self.old.journal }
        ensures round { (machine_of self.new).round ≡ (machine_of self.old).round }
    {
        let Publication {
            task,
            ticket,
            artifact,
        } = publication;
        if is_leased_by(self.rounds.found(round, task), ticket) {
            self.rounds.publish(round, task, ticket, artifact);
        }
    }

    fn put_all(&mut self, round: u32, taken: Vec<Publication>)
        requires sound { IsSound D.told D.seen D.faults self.old }
        requires written { 13 * ((machine_of self.old).round + 1) ≤ journal_gate (journal_of self.old) }
        ensures sound { IsSound D.told D.seen D.faults self.new }
        ensures opening { self.new.opening ≡ self.old.opening }
        ensures journal { self.new.journal ≡ self.old.journal }
        ensures round { (machine_of self.new).round ≡ (machine_of self.old).round }
    {
        for publication in taken {
            self.put(round, publication);
        }
    }

    /// Stores artifacts of tasks of one round, each as `publish` does, in order, but all records of them are written
    /// together: a crash leaves all of them or none. After `NoMemory` nothing was stored.
    pub fn publish_all(
        &mut self,
        alloc: Global,
        work: &W,
        round: u32,
        publications: Vec<Publication>,
    ) -> Result<Vec<Publish>, NoMemory>
        requires sound { IsSound D.told D.seen D.faults self.old }
        requires work { self.old.opening.work.value ≡ work.now }
        requires artifacts { All (λ p. IsNoMark p.artifact.items) publications.items }
        ensures sound { IsSound D.told D.seen D.faults self.new }
        ensures opening { self.new.opening ≡ self.old.opening }
        ensures round { (machine_of self.new).round ≡ (machine_of self.old).round }
        ensures gate { journal_gate (journal_of self.old) ≤ journal_gate (journal_of self.new) }

        // Each publication is answered. Unless a call of the disk failed, each crash after the call leaves the records of those
        // that are stored behind the records before, and at any moment of the call it leaves all of them or none.
        ensures answers { IfOk result (λ a. length a.items ≡ length publications.items) }
        ensures lasts { IfOk result (λ a. answered_by is_failed publications.items a.items ≡ [] →
            Lasts D.told D.may_leave (records_of (shelf_of self.old) round (answered_by is_stored publications.items a.items)) (journal_of self.old) (journal_of self.new)) }
        ensures stays { OnErr result (Lasts D.told D.may_leave [] (journal_of self.old) (journal_of self.new)) }
        ensures any_moment { AllOrNone D.told D.moment D.left_since D.may_leave (written_by (shelf_of self.old) round publications.items result) (journal_of self.old) (journal_of self.new) }
        ensures failed { IfOk result (λ a. answered_by is_failed publications.items a.items ≢ [] →
            (answered_by is_stored publications.items a.items ≡ []) × HasFailed D.faults (journal_of self.old) (journal_of self.new)) }

        // Where an answer is `Disk`, a call of the disk has failed; where it is `Full`, the image would be longer than
        // 2,147,483,648 bytes.
        ensures causes { IfOk result (λ a. All (HasCause (has_failed (journal_of self.new))) a.items) }
    {
        let _ = work;
        let batch = self.decide_all(alloc, round, publications)?;
        let (piece, taken, answers) = batch.into_parts();
        let Some(piece) = piece else {
            return Ok(answers);
        };
        match self.write_piece(&piece) {
            Ok(()) => (),
            Err(Stop::Disk) => return Ok(answered(answers, Publish::Disk)),
            Err(Stop::Full { size }) => return Ok(answered(answers, Publish::Full { size })),
            Err(Stop::NoMemory) => return Err(NoMemory),
        }
        self.put_all(round, taken);
        Ok(answers)
    }

    /// Gives a lease back by its ticket.
    pub fn abandon(&mut self, round: u32, task: u32, ticket: u64) -> Abandoned
        requires { IsSound D.told D.seen D.faults self.old }
        ensures sound { IsSound D.told D.seen D.faults self.new }
        ensures opening { self.new.opening ≡ self.old.opening }
        ensures step { Abandons round task ticket (machine_of self.old) result (machine_of self.new) }
        ensures events { events_of self.new ≡ events_of self.old ++ abandons_of task result }
        ensures shelf { shelf_of self.new ≡ shelf_of self.old }
        ensures journal { journal_of self.new ≡ journal_of self.old }
    {
        self.rounds.abandon(round, task, ticket)
    }

    /// Frees each task whose lease has run out, and counts them.
    pub fn expire(&mut self, now: u64) -> u32
        requires { IsSound D.told D.seen D.faults self.old }
        ensures sound { IsSound D.told D.seen D.faults self.new }
        ensures opening { self.new.opening ≡ self.old.opening }
        ensures step { Expires now (machine_of self.old) result (machine_of self.new) }
        ensures events { events_of self.new ≡ events_of self.old ++ expires_of now result }
        ensures shelf { shelf_of self.new ≡ shelf_of self.old }
        ensures journal { journal_of self.new ≡ journal_of self.old }
    {
        self.rounds.expire(now)
    }

    /// Begins the next round, or ends the tables after the last.
    pub fn advance(&mut self, alloc: Global, work: &W) -> Result<(), NoMemory>
        requires sound { IsSound D.told D.seen D.faults self.old }
        requires work { self.old.opening.work.value ≡ work.now }
        requires done { AllDone (machine_of self.old).tasks }
        requires going { (machine_of self.old).ended ≡ false }
        ensures sound { IsSound D.told D.seen D.faults self.new }
        ensures opening { self.new.opening ≡ self.old.opening }
        ensures follows { OnOk result (FollowsRound self.old self.new) }
        ensures journal { journal_of self.new ≡ journal_of self.old }
        ensures err { OnErr result (self.new ≡ self.old) }
    {
        let next = work.plan(alloc, self.rounds.round() + 1, self.rounds.shelf())?;
        self.rounds.advance(alloc, next)
    }

    /// The length of the image.
    pub fn size(&self) -> u64
        requires { IsSound D.told D.seen D.faults self.now }
        ensures { result ≡ journal_gate (journal_of self.now) + 1 }
    {
        self.journal.size_with(0) - 13
    }

    /// The disk, once the tables are done with.
    pub fn into_disk(self) -> D
        ensures { result ≡ journal_disk (journal_of self) }
    {
        let Tables {
            opening: _,
            rounds: _,
            journal,
        } = self;
        journal.into_disk()
    }
}
