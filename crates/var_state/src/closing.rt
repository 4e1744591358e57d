// The closed form of a matrix as widened.

ghost use Rattle.std.specs.Prelude.{◌≡◌, ℕ, ◌+◌, ◌*◌, ◌^◌, ◌≤◌, length, pos, unwrap_or};
ghost use Rattle.dbm_matrix.specs.Bounds.{bound, IsWithin, IsRanged};
ghost use Rattle.dbm_matrix.specs.Changes.{AreWithin};
ghost use Rattle.dbm_matrix.specs.Paths.{IsClosed};
ghost use Rattle.var_state.specs.Grids.{at, HasRoom, IsSmall, IsSound};

use crate::cells::{fill, get};
use crate::range::FAR;
use dbm_matrix::{Closing, Matrix};

fn add_row(m: &mut Matrix, cells: &[i128; 289], n: usize, i: usize)
    requires size { (m.old.size ≡ n) × (n ≤ 16) × (i ≤ n) }
    requires small { IsSmall n (at cells.now) }
    requires within { IsWithin (2 ^ 81) n (bound m.old) }
    requires ranged { IsRanged (2 ^ 80) n (bound m.old) }
    ensures size { m.new.size ≡ n }
    ensures within { IsWithin (2 ^ 81) n (bound m.new) }
    ensures ranged { IsRanged (2 ^ 80) n (bound m.new) }
{
    for j in 0..n + 1 {
        if i != j {
            m.add_bound(i, j, get(cells, i, j));
        }
    }
}

// A matrix of near ranges.
fn widest(ranges: &[(i128, i128)]) -> Matrix
    requires count { (1 ≤ length ranges.now) × (length ranges.now ≤ 16) }
    requires near { AreWithin (2 ^ 80) ranges.now }
    ensures size { result.size ≡ length ranges.now }
    ensures within { IsWithin (2 ^ 81) (length ranges.now) (bound result) }
    ensures ranged { IsRanged (2 ^ 80) (length ranges.now) (bound result) }
{
    Matrix::new(ranges)
}

fn matrix_of(cells: &[i128; 289], n: usize) -> Matrix
    requires size { (1 ≤ n) × (n ≤ 16) }
    requires small { IsSmall n (at cells.now) }
    ensures size { result.size ≡ n }
    ensures within { IsWithin (2 ^ 81) n (bound result) }
    ensures ranged { IsRanged (2 ^ 80) n (bound result) }
{
    let ranges = [(-FAR, FAR); 16];
    let mut m = widest(&ranges[..n]);
    for i in 0..n + 1 {
        add_row(&mut m, cells, n, i);
    }
    m
}

fn or_far(o: Option<i128>) -> i128
    ensures value { result ≡ unwrap_or o (pos (2 ^ 80)) }
{
    o.unwrap_or(FAR)
}

fn read_back(cells: &mut Vec<i128>, n: usize, m: &Matrix)
    requires room { HasRoom n cells.old.items }
    requires size { m.now.size ≡ n }
    requires closed { IsClosed n (bound m.now) }
    requires ranged { IsRanged (2 ^ 80) n (bound m.now) }
    ensures room { HasRoom n cells.new.items }
    ensures value { (p q : ℕ) → p ≤ n → q ≤ n → at cells.new.items p q ≡ unwrap_or (bound m.now p q) (pos (2 ^ 80)) }
    ensures sound { IsSound n (at cells.new.items) }
{
    fill(
        cells,
        n,
        &|p: usize, q: usize| -> i128
            requires { (p ≤ m.now.size) × (q ≤ m.now.size) }
            ensures { result ≡ unwrap_or (bound m.entry.now p q) (pos (2 ^ 80)) }
        { or_far(m.bound(p, q)) },
    );
}

/// The closed form of bounds that may not be closed; where they have no solution, the cells stay as they are.
pub(crate) fn close_into(cells: &mut Vec<i128>, n: usize, kept: &[i128; 289])
    requires room { HasRoom n cells.old.items }
    requires sound { IsSound n (at cells.old.items) }
    requires small { IsSmall n (at kept.now) }
    ensures room { HasRoom n cells.new.items }
    ensures sound { IsSound n (at cells.new.items) }
{
    let mut m = matrix_of(kept, n);
    match m.close() {
        Closing::Feasible => read_back(cells, n, &m),
        Closing::Empty => {}
    }
}
