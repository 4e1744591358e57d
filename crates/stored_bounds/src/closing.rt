// Stored matrices, closed.

ghost use Rattle.std.specs.Prelude.{◌≡◌, ◌^◌, ◌≤◌, length, unsigned_abs};
ghost use Rattle.dbm_matrix.specs.Changes.{AreWithin};
ghost use Rattle.dbm_matrix.specs.Bounds.{bound, IsWithin, IsRanged};

use crate::entries::{bound_at, copied};
use core_ir::Bounds;
use dbm_matrix::{Closing, Matrix};
use std::alloc::Global;
use sv_base::NoMemory;

// Registers lie within 2^80 either way, and bounds within 2^81: what is stored beyond says no more.
const RANGE: i128 = 1208925819614629174706176;

const BOUND: i128 = 2417851639229258349412352;

fn clamped(bound: i128) -> i128
    ensures small { unsigned_abs result ≤ 2 ^ 81 }
{
    bound.clamp(-BOUND, BOUND)
}

fn add_row(m: &mut Matrix, b: &Bounds, n: usize, i: usize)
    requires size { (m.old.size ≡ n) × (n ≤ 16) × (i ≤ n) }
    requires within { IsWithin (2 ^ 81) n (bound m.old) }
    requires ranged { IsRanged (2 ^ 80) n (bound m.old) }
    ensures size { m.new.size ≡ n }
    ensures within { IsWithin (2 ^ 81) n (bound m.new) }
    ensures ranged { IsRanged (2 ^ 80) n (bound m.new) }
{
    for j in 0..n + 1 {
        if i != j {
            if let Some(stored) = bound_at(b, i, j) {
                m.add_bound(i, j, clamped(stored));
            }
        }
    }
}

// A matrix of near ranges.
fn widest(ranges: &[(i128, i128)]) -> Matrix
    requires count { (1 ≤ length ranges.now) × (length ranges.now ≤ 16) }
    requires near { AreWithin (2 ^ 80) ranges.now }
    ensures size { result.size ≡ length ranges.now }
    ensures within { IsWithin (2 ^ 81) (length ranges.now) (bound result) }
    ensures ranged { IsRanged (2 ^ 80) (length ranges.now) (bound result) }
{
    Matrix::new(ranges)
}

fn matrix_of(b: &Bounds, n: usize) -> Matrix
    requires size { (1 ≤ n) × (n ≤ 16) }
    ensures size { result.size ≡ n }
    ensures within { IsWithin (2 ^ 81) n (bound result) }
    ensures ranged { IsRanged (2 ^ 80) n (bound result) }
{
    let ranges = [(-RANGE, RANGE); 16];
    let mut m = widest(&ranges[..n]);
    for i in 0..n + 1 {
        add_row(&mut m, b, n, i);
    }
    m
}

fn stored(alloc: Global, m: &Matrix) -> Result<Bounds, NoMemory> {
    let n = m.size();
    let mut entries = Vec::new(alloc);
    for i in 0..n + 1 {
        for j in 0..n + 1 {
            if i != j {
                entries.push(m.bound(i, j))?;
            }
        }
    }
    Ok(Bounds {
        size: n as u8,
        entries,
    })
}

/// The closed form. A matrix that has no solution, or not 1 to 16 variables, stays as it is.
pub fn closed(alloc: Global, b: &Bounds) -> Result<Bounds, NoMemory> {
    let n = b.size as usize;
    if n < 1 || n > 16 {
        return copied(alloc, b);
    }
    let mut m = matrix_of(b, n);
    match m.close() {
        Closing::Feasible => stored(alloc, &m),
        Closing::Empty => copied(alloc, b),
    }
}

// The greater bound, none where either is missing.
fn greater(a: Option<i128>, b: Option<i128>) -> Option<i128> {
    match (a, b) {
        (Some(a), Some(b)) => Some(a.max(b)),
        _ => None,
    }
}

/// The join of two matrices of one size: what both, closed, say.
pub fn joined(alloc: Global, a: &Bounds, b: &Bounds) -> Result<Bounds, NoMemory> {
    let left = closed(alloc, a)?;
    let right = closed(alloc, b)?;
    let mut entries = Vec::new(alloc);
    for (x, y) in left.entries.iter().zip(&right.entries) {
        entries.push(greater(*x, *y))?;
    }
    Ok(Bounds {
        size: left.size,
        entries,
    })
}
