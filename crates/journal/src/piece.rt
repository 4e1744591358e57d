ghost use Rattle.std.specs.Prelude.{◌≡◌, ◌≤◌, ◌<◌, ◌+◌, ◌++◌, length, vec_len, vec_capacity};
ghost use Rattle.byteorder.specs.Endian.{big_bytes};

use byteorder::{BigEndian, ByteOrder};
use std::alloc::Global;
use sv_base::NoMemory;

/// Records as they are written: their bytes, the gates between them open, and the closed gate of the record after them.
#[derive(Drop)]
pub struct Piece {
    pub(crate) bytes: Vec<u8>,
    ghost whole: { 13 ≤ vec_len bytes },
}

// The round, the task and the length of the body.
pub(crate) fn numbers(round: u32, task: u32, length: u32) -> [u8; 12]
    ensures { result ≡ big_bytes 4 round ++ big_bytes 4 task ++ big_bytes 4 length }
{
    let mut bytes = [0; 12];
    BigEndian::write_u32(&mut bytes[..4], round);
    BigEndian::write_u32(&mut bytes[4..8], task);
    BigEndian::write_u32(&mut bytes[8..], length);
    bytes
}

// Appends what there is room for.
fn append_reserved(bytes: &mut Vec<u8>, more: &[u8])
    requires { vec_len bytes.old + length more.now ≤ vec_capacity bytes.old }
    ensures items { bytes.new.items ≡ bytes.old.items ++ more.now }
    ensures room { vec_capacity bytes.old ≤ vec_capacity bytes.new }
{
    match bytes.extend_from_slice(more) {
        Ok(()) => (),
        Err(_) => unreachable!(),
    }
}

impl Piece {
    ghost use Rattle.std.specs.Prelude.{◌≡◌, ◌≤◌, ◌<◌, ◌^◌, ◌-◌, ◌+◌, ◌++◌, ◌∷◌, [], List, length, IfOk, OnOk, OnErr};
    ghost use Rattle.journal.specs.Format.{Entry, IsBatch};
    ghost use Rattle.journal.specs.Pieces.{piece_bytes};

    /// The record of a body, of at most 2,147,483,648 bytes, for a task of a round. No round has the greatest number.
    pub fn new(alloc: Global, round: u32, task: u32, body: &[u8]) -> Result<Piece, NoMemory>
        requires body { length body.now ≤ 2 ^ 31 }
        requires round { round < 2 ^ 32 - 1 }
        ensures batch { IfOk result (λ p. IsBatch (record { round = round; task = task; body = body.now } ∷ []) (piece_bytes p)) }
        ensures length { IfOk result (λ p. length (piece_bytes p) ≡ length body.now + 13) }
    {
        let mut bytes = Vec::with_capacity(alloc, body.len() + 13)?;
        append_reserved(&mut bytes, &numbers(round, task, body.len() as u32));
        append_reserved(&mut bytes, body);
        bytes.push_reserved(0);
        Ok(Piece { bytes })
    }

    /// How many bytes are written, the closed gate behind them among them.
    pub fn len(&self) -> usize
        ensures length { result ≡ length (piece_bytes self.now) }
        ensures whole { 13 ≤ result }
    {
        self.bytes.len()
    }

    /// Adds a record behind the last one, to be written together with it.
    pub fn add(&mut self, round: u32, task: u32, body: &[u8]) -> Result<(), NoMemory>
        requires body { length body.now ≤ 2 ^ 31 }
        requires round { round < 2 ^ 32 - 1 }
        ensures added { OnOk result ((batch : List Entry) → IsBatch batch (piece_bytes self.old) → IsBatch (batch ++ record { round = round; task = task; body = body.now } ∷ []) (piece_bytes self.new)) }
        ensures length { OnOk result (length (piece_bytes self.new) ≡ length (piece_bytes self.old) + length body.now + 13) }
        ensures err { OnErr result (piece_bytes self.new ≡ piece_bytes self.old) }
    {
        self.bytes.reserve(body.len() + 13)?;
        let last = self.bytes.len() - 1;
        self.bytes[last] = 1;
        append_reserved(&mut self.bytes, &numbers(round, task, body.len() as u32));
        append_reserved(&mut self.bytes, body);
        self.bytes.push_reserved(0);
        Ok(())
    }
}
