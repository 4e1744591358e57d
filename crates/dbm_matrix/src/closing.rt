// Closure in place, one variable after another (Floyd and Warshall).

ghost use Rattle.std.specs.Prelude.{◌≡◌, ◌≢◌, ℕ, ◌+◌, ◌*◌, ◌^◌, ◌<◌, ◌≤◌, ◌↔◌, length, ℤ, pos, ◌<ℤ◌, slice_set, unsigned_abs, Option, Some, IsTrue};
ghost use Rattle.dbm_matrix.specs.Bounds.{at, IsWithin};
ghost use Rattle.dbm_matrix.specs.Paths.{IsClosureOf, IsClosed, HasNegativeCycle};
ghost use Rattle.dbm_matrix.specs.Changes.{lesser, sum_of, through};

use crate::cells::{Cells, get, put};
use crate::values::{is_below, min, sum};

/// Whether a matrix has a closed form.
#[derive(Clone, Copy, Debug, PartialEq, Eq)]
pub enum Closing {
    /// It has one, which has been made.
    Feasible,
    /// A closed path is negative: nothing solves the matrix.
    Empty,
}

// Counts the path from i over k to j, where first is the bound from i to k.
fn relax(cells: &mut Cells, k: usize, i: usize, j: usize, first: Option<i128>)
    requires in_range { (k < 17) × (i < 17) × (j < 17) }
    requires first { (c : _) → first ≡ Some c → unsigned_abs c ≤ 2 ^ 120 }
    requires second { (c : _) → at cells.old k j ≡ Some c → unsigned_abs c ≤ 2 ^ 120 }
    ensures cells { cells.new ≡ slice_set cells.old (17 * i + j) (lesser (at cells.old i j) (sum_of first (at cells.old k j))) }
{
    let over = sum(first, get(cells, k, j));
    let least = min(get(cells, i, j), over);
    put(cells, i, j, least);
}

// Counts the paths from i over k.
fn relax_row(cells: &mut Cells, n: usize, k: usize, i: usize)
    requires in_range { (n < 17) × (k ≤ n) × (i ≤ n) }
    requires within { IsWithin (2 ^ 120) n (at cells.old) }
    ensures len { length cells.new ≡ 289 }
    ensures row { (j : ℕ) → j ≤ n → at cells.new i j ≡ through k (at cells.old) i j }
    ensures others { (r j : ℕ) → j < 17 → r ≢ i → at cells.new r j ≡ at cells.old r j }
{
    let first = get(cells, i, k);
    if first.is_none() {
        return;
    }
    for j in 0..n + 1 {
        relax(cells, k, i, j, first);
    }
}

// Counts the paths over k.
fn relax_all(cells: &mut Cells, n: usize, k: usize)
    requires in_range { (n < 17) × (k ≤ n) }
    requires here { at cells.old k k ≡ Some (pos 0) }
    requires within { IsWithin (2 ^ 119) n (at cells.old) }
    ensures len { length cells.new ≡ 289 }
    ensures all { (i j : ℕ) → i ≤ n → j ≤ n → at cells.new i j ≡ through k (at cells.old) i j }
{
    for i in 0..n + 1 {
        relax_row(cells, n, k, i);
    }
}

fn is_negative(cells: &Cells, k: usize) -> bool
    requires place { k < 17 }
    ensures negative { IsTrue result ↔ ((c : ℤ) × (at cells.now k k ≡ Some c) × (c <ℤ pos 0)) }
{
    is_below(get(cells, k, k), 0)
}

// Puts 0 on the diagonal where there is no lesser bound.
fn clear_diagonal(cells: &mut Cells, n: usize)
    requires in_range { n < 17 }
    ensures len { length cells.new ≡ 289 }
    ensures diagonal { (i : ℕ) → i ≤ n → at cells.new i i ≡ lesser (at cells.old i i) (Some (pos 0)) }
    ensures others { (i j : ℕ) → j < 17 → i ≢ j → at cells.new i j ≡ at cells.old i j }
{
    for i in 0..n + 1 {
        let least = min(get(cells, i, i), Some(0));
        put(cells, i, i, least);
    }
}

// A negative diagonal is looked for before each step, so that bounds at most double in one.
pub(crate) fn close(cells: &mut Cells, n: usize) -> Closing
    requires in_range { n < 17 }
    requires within { IsWithin (2 ^ 90) n (at cells.old) }
    ensures len { length cells.new ≡ 289 }
    ensures feasible { result ≡ Closing.Feasible → IsClosureOf n (at cells.old) (at cells.new) }
    ensures closed { result ≡ Closing.Feasible → IsClosed n (at cells.new) }
    ensures empty { result ≡ Closing.Empty ↔ HasNegativeCycle n (at cells.old) }
{
    clear_diagonal(cells, n);
    for k in 0..n + 1 {
        if is_negative(cells, k) {
            return Closing::Empty;
        }
        relax_all(cells, n, k);
    }
    for i in 0..n + 1 {
        if is_negative(cells, i) {
            return Closing::Empty;
        }
    }
    Closing::Feasible
}
