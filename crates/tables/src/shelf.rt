ghost use Rattle.std.specs.Prelude.{◌≡◌, replicate, IfOk, None, map};
ghost use Rattle.tables.specs.Shelves.{is_same, bytes_in};

use std::alloc::{AllocError, Global};
use std::marker::Model;
use sv_base::NoMemory;

// How many rounds are kept from the first one on.
const FIRST: usize = 3;

// The artifacts of a round by task, none where the task is not done.
type Row = Vec<Option<Vec<u8>>>;

/// The artifacts of rounds 0 to 2, of the current round and of the one before it.
#[derive(Drop)]
pub struct Shelf {
    // by round; those that are not kept are empty
    rows: Vec<Row>,
    still: Option<u32>,
}

impl Model for Shelf {
    ghost use Rattle.std.specs.Prelude.{◌^◌, ◌<◌, length, map};
    ghost use Rattle.tables.specs.Shelves.{Shelved, row_of};

    ghost Value = { Shelved };

    ghost view = { λ s. record { rows = map row_of s.rows.items; still_before = s.still } };

    ghost invariant = { λ s. length s.rows.items < 2 ^ 32 };
}

fn empty_row(alloc: Global, tasks: u32) -> Result<Row, AllocError>
    ensures { IfOk result (λ row. row.items ≡ replicate tasks None) }
{
    let mut row = Vec::with_capacity(alloc, tasks as usize)?;
    for _done in 0..tasks {
        row.push_reserved(None);
    }
    Ok(row)
}

// Whether each task is done in both rounds, with one artifact.
fn is_same(before: &[Option<Vec<u8>>], now: &[Option<Vec<u8>>]) -> bool
    ensures { result ≡ is_same (map bytes_in before.now) (map bytes_in now.now) }
{
    if before.len() != now.len() {
        return false;
    }
    for task in 0..now.len() {
        match (&before[task], &now[task]) {
            (Some(old), Some(new)) => {
                if old.as_slice() != new.as_slice() {
                    return false;
                }
            }
            _ => return false,
        }
    }
    true
}

impl Shelf {
    ghost use Rattle.std.specs.Prelude.{◌≡◌, ◌-◌, ◌^◌, ◌<◌, [], None, length, OnOk, OnErr};
    ghost use Rattle.std.specs.Option.{option_copied};
    ghost use Rattle.tables.specs.Shelves.{artifact_at, begun, shelved, ends_still, still_of, row_length};

    pub fn new(alloc: Global) -> Shelf
        ensures rows { result.rows ≡ [] }
        ensures still { result.still_before ≡ None }
    {
        Shelf {
            rows: Vec::new(alloc),
            still: None,
        }
    }

    /// The artifact of a task, none where the round is not kept or the task is not done.
    pub fn get(&self, round: u32, task: u32) -> Option<&[u8]>
        ensures { option_copied result ≡ artifact_at self.now round task }
    {
        let row = self.rows.get(round as usize)?;
        match row.get(task as usize) {
            Some(Some(artifact)) => Some(artifact.as_slice()),
            _ => None,
        }
    }

    // Whether the current round is done and has the artifacts of the one before it.
    fn ends_still(&self) -> bool
        ensures { result ≡ ends_still self.now.rows }
    {
        match self.rows.as_slice() {
            [.., before, now] => is_same(before, now),
            _ => false,
        }
    }

    /// The first round that is done and has the artifacts of the round before it, task by task. It compares the current
    /// round with the one before.
    pub fn still(&self) -> Option<u32>
        ensures { result ≡ still_of self.now }
    {
        if self.still.is_some() {
            return self.still;
        }
        if self.ends_still() {
            return Some((self.rows.len() - 1) as u32);
        }
        None
    }

    /// Begins the next round, of so many tasks.
    pub(crate) fn begin(&mut self, alloc: Global, tasks: u32) -> Result<(), NoMemory>
        requires { length self.old.rows < 2 ^ 32 - 1 }
        ensures begun { OnOk result (self.new ≡ begun self.old tasks) }
        ensures err { OnErr result (self.new ≡ self.old) }
    {
        let still = self.still();
        let row = empty_row(alloc, tasks)?;
        self.rows.push(row)?;
        self.still = still;
        let current = self.rows.len() - 1;
        if current >= FIRST + 2 {
            self.rows[current - 2] = Vec::new(alloc);
        }
        Ok(())
    }

    /// Puts the artifact of a task of the current round.
    pub(crate) fn put(&mut self, task: u32, artifact: Vec<u8>)
        requires { task < row_length self.old (length self.old.rows - 1) }
        ensures { self.new ≡ shelved self.old task artifact.items }
    {
        let current = self.rows.len() - 1;
        let row = &mut self.rows[current];
        row[task as usize] = Some(artifact);
    }
}
