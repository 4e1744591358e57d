ghost use Rattle.std.specs.Prelude.{◌≡◌, ◌<◌, ◌∷◌, [], length, IfOk};

use std::alloc::Global;
use sv_base::NoMemory;
use tables::{Next, Shelf, Turn, Work};

/// Rounds of as many tasks each. An artifact is the byte 5 and a byte that is one more than in the round before, up to 3.
pub struct Steps {
    pub rounds: u32,
    pub tasks: u32,
}

impl Work for Steps {
    type Basis = u32;

    type View = u8;

    fn plan(&self, _alloc: Global, round: u32, _shelf: &Shelf) -> Result<Next<u32>, NoMemory> {
        if round < self.rounds && self.tasks > 0 {
            let tasks = self.tasks;
            return Ok(Next::Round {
                tasks,
                basis: round,
            });
        }
        Ok(Next::End)
    }

    fn view(
        &self,
        _alloc: Global,
        _round: u32,
        task: u32,
        basis: &u32,
        shelf: &Shelf,
    ) -> Result<u8, NoMemory> {
        if *basis == 0 {
            return Ok(0);
        }
        match shelf.get(*basis - 1, task) {
            Some([5, last]) => Ok(*last),
            _ => Ok(0),
        }
    }

    fn compute(&self, alloc: Global, _turn: &Turn, view: &u8) -> Result<Vec<u8>, NoMemory> {
        let last = if *view < 3 { *view + 1 } else { 3 };
        Ok([5, last].to_vec(alloc)?)
    }

    fn spelled(&self, _round: u32, _task: u32, bytes: &[u8]) -> bool {
        matches!(bytes, [5, _])
    }
}
