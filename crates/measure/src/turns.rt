ghost use Rattle.std.specs.Prelude.{◌≡◌, ◌*◌, ◌^◌, ◌≤◌};
ghost use Rattle.dbm_matrix.specs.Bounds.{bound, IsWithin, IsRanged};
ghost use Rattle.dbm_matrix.specs.Paths.{IsClosed};

use dbm_incremental::tighten;
use dbm_matrix::{Closing, Matrix};

/// What is repeated.
#[derive(Clone, Copy, Debug, PartialEq, Eq)]
pub(crate) enum Operation {
    /// Closing in full.
    Close,
    /// Closing after one bound between the first two variables.
    Tighten,
}

/// The range of each variable.
const RANGES: [(i128, i128); 16] = [(0, 100); 16];

/// Does the operation so often on a matrix of so many variables, and says how often it was feasible.
pub(crate) fn repeat(operation: Operation, size: usize, count: u64) -> u64
    requires low { 2 ≤ size }
    requires high { size ≤ 16 }
{
    let mut matrix = Matrix::new(&RANGES[..size]);
    if matrix.close() == Closing::Empty {
        return 0;
    }
    match operation {
        Operation::Close => repeat_close(&mut matrix, count),
        Operation::Tighten => repeat_tighten(&mut matrix, count),
    }
}

fn repeat_close(matrix: &mut Matrix, count: u64) -> u64
    requires ranged { IsRanged 100 matrix.old.size (bound matrix.old) }
    requires within { IsWithin 200 matrix.old.size (bound matrix.old) }
{
    for done in 0..count {
        if matrix.close() == Closing::Empty {
            return done;
        }
    }
    count
}

fn repeat_tighten(matrix: &mut Matrix, count: u64) -> u64
    requires size { 2 ≤ matrix.old.size }
    requires closed { IsClosed matrix.old.size (bound matrix.old) }
    requires ranged { IsRanged 100 matrix.old.size (bound matrix.old) }
    requires within { IsWithin 200 matrix.old.size (bound matrix.old) }
{
    for done in 0..count {
        if tighten(matrix, 1, 2, 50) == Closing::Empty {
            return done;
        }
    }
    count
}
