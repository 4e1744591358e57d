ghost use Rattle.std.specs.Prelude.{◌≡◌, true, IfOk};
ghost use Rattle.tables.specs.Works.{HasTask, IsNoMark};

use crate::{Shelf, Turn};
use std::alloc::Global;
use sv_base::NoMemory;

/// What comes after the rounds before.
#[derive(Drop)]
pub enum Next<B> {
    /// A round of so many tasks, and what each of them needs of the rounds before.
    Round { tasks: u32, basis: B },
    End,
}

/// Rounds of tasks, each of which gives an artifact. A round is planned once each task of the one before it is done. The
/// artifacts depend on nothing but what came before, so that it does not matter who computes them, or when.
pub trait Work {
    type Basis: Send + Drop;

    type View: Send + Drop;

    /// The round of this number, from 0, by the artifacts of those before it. No round is without a task.
    fn plan(&self, alloc: Global, round: u32, shelf: &Shelf) -> Result<Next<Self::Basis>, NoMemory>
        ensures { IfOk result (λ next. HasTask next) };

    /// What the computation of a task needs, taken off the shelf.
    fn view(
        &self,
        alloc: Global,
        round: u32,
        task: u32,
        basis: &Self::Basis,
        shelf: &Shelf,
    ) -> Result<Self::View, NoMemory>;

    /// The artifact of the turn's task. It is never the single byte 6, which stands for the artifact of the same task in
    /// the round before.
    fn compute(&self, alloc: Global, turn: &Turn, view: &Self::View) -> Result<Vec<u8>, NoMemory>
        ensures { IfOk result (λ artifact. IsNoMark artifact.items) };

    /// Whether the bytes have the form of an artifact of this task. The single byte 6 has not.
    fn spelled(&self, round: u32, task: u32, bytes: &[u8]) -> bool
        ensures { result ≡ true → IsNoMark bytes.now };
}
