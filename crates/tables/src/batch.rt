//! Publications of one round whose records are written together.
ghost use Rattle.std.specs.Prelude.{◌≡◌, ◌≤◌, ◌^◌, map};
ghost use Rattle.tables.specs.Batches.{instead};

use crate::Publish;
use journal::Piece;
use std::alloc::{AllocError, Global};
use sv_base::NoMemory;

/// The artifact of a task, and the ticket that leases it.
#[derive(Debug, Drop)]
pub struct Publication {
    pub task: u32,
    pub ticket: u64,
    pub artifact: Vec<u8>,
}

/// The records that are to be written, the publications that they are of, and an answer for each publication so far.
#[derive(Drop)]
pub(crate) struct Batch {
    piece: Option<Piece>,
    taken: Vec<Publication>,
    answers: Vec<Publish>,
    length: u64,
    ghost short: { length ≤ 2 ^ 31 },
}

impl Batch {
    ghost use Rattle.std.specs.Prelude.{◌≡◌, ◌≤◌, ◌<◌, ◌^◌, ◌+◌, ◌-◌, ◌++◌, ◌∷◌, [], List, None, length, OnOk};
    ghost use Rattle.journal.specs.Format.{Entry};
    ghost use Rattle.tables.specs.Batches.{IsPieceOf};

    pub(crate) fn new(alloc: Global) -> Batch
        ensures piece { result.piece ≡ None }
        ensures taken { result.taken.items ≡ [] }
        ensures answers { result.answers.items ≡ [] }
    {
        Batch {
            piece: None,
            taken: Vec::new(alloc),
            answers: Vec::new(alloc),
            length: 0,
        }
    }

    /// How many bytes are to be written, the closed gate behind them left out.
    pub(crate) fn len(&self) -> u64
        ensures length { result ≡ self.now.length }
        ensures short { result ≤ 2 ^ 31 }
    {
        self.length
    }

    /// The ticket of the publication of this task that was taken, if one was.
    pub(crate) fn ticket_of(&self, task: u32) -> Option<u64> {
        let same = self.taken.iter().find(|taken| taken.task == task)?;
        Some(same.ticket)
    }

    /// Answers the next publication, of which no record is written.
    pub(crate) fn refuse(&mut self, answer: Publish) -> Result<(), AllocError>
        ensures piece { self.new.piece ≡ self.old.piece }
        ensures taken { self.new.taken ≡ self.old.taken }
        ensures answers { OnOk result (self.new.answers.items ≡ self.old.answers.items ++ answer ∷ []) }
    {
        self.answers.push(answer)?;
        Ok(())
    }

    /// Adds a record of the next publication.
    pub(crate) fn write(
        &mut self,
        alloc: Global,
        round: u32,
        task: u32,
        body: &[u8],
    ) -> Result<(), NoMemory>
        requires round { round < 2 ^ 32 - 1 }
        requires short { self.old.length + length body.now + 13 ≤ 2 ^ 31 }
        ensures round { round < 2 ^ 32 - 1 }
        ensures task { task < 2 ^ 32 }
        ensures short { length body.now ≤ 2 ^ 31 }
        ensures piece { (entries : List Entry) → IsPieceOf entries self.old.piece →
            OnOk result (IsPieceOf (entries ++ record { round = round; task = task; body = body.now } ∷ []) self.new.piece) }
        ensures taken { self.new.taken ≡ self.old.taken }
        ensures answers { self.new.answers ≡ self.old.answers }
    {
        match self.piece.take() {
            None => {
                self.piece = Some(Piece::new(alloc, round, task, body)?);
            }
            Some(mut piece) => {
                piece.add(round, task, body)?;
                self.piece = Some(piece);
            }
        }
        self.length += body.len() as u64 + 13;
        Ok(())
    }

    /// Takes the next publication, whose record was added.
    pub(crate) fn take(&mut self, publication: Publication) -> Result<(), AllocError>
        ensures piece { self.new.piece ≡ self.old.piece }
        ensures taken { OnOk result (self.new.taken.items ≡ self.old.taken.items ++ publication ∷ []) }
        ensures answers { OnOk result (self.new.answers.items ≡ self.old.answers.items ++ Publish.Stored ∷ []) }
    {
        self.taken.push(publication)?;
        self.answers.push(Publish::Stored)?;
        Ok(())
    }

    /// What is to be written, the publications that were taken, and the answers.
    pub(crate) fn into_parts(self) -> (Option<Piece>, Vec<Publication>, Vec<Publish>)
        ensures { (result.0 ≡ self.piece) × (result.1 ≡ self.taken) × (result.2 ≡ self.answers) }
    {
        let Batch {
            piece,
            taken,
            answers,
            length: _,
        } = self;
        (piece, taken, answers)
    }
}

fn instead(each: Publish, answer: Publish) -> Publish
    ensures { result ≡ instead answer each }
{
    match each {
        Publish::Stored => answer,
        other => other,
    }
}

/// The answers, with this one for each publication that was taken.
pub(crate) fn answered(answers: Vec<Publish>, answer: Publish) -> Vec<Publish>
    ensures { result.items ≡ map (instead answer) answers.items }
{
    let mut answers = answers;
    for each in answers.iter_mut() {
        *each = instead(*each, answer);
    }
    answers
}
