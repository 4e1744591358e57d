// The cells of a matrix of up to 16 variables: rows of 17, of which the first n + 1 places of the first n + 1 rows are in use.

ghost use Rattle.std.specs.Prelude.{◌≡◌, ◌≢◌, ℕ, ◌+◌, ◌*◌, ◌<◌, ◌≤◌, length, slice_set, vec_len, IfOk, pos};
ghost use Rattle.var_state.specs.Grids.{at};

use std::alloc::Global;
use sv_base::NoMemory;

/// Cells of n variables, all 0.
pub(crate) fn zeros(alloc: Global, n: usize) -> Result<Vec<i128>, NoMemory>
    requires { n ≤ 16 }
    ensures len { IfOk result (λ cells. length cells.items ≡ 17 * (n + 1)) }
    ensures each { IfOk result (λ cells. (i j : ℕ) → at cells.items i j ≡ pos 0) }
{
    Ok(vec![in alloc; 0; 17 * (n + 1)]?)
}

pub(crate) fn get(cells: &[i128; 289], i: usize, j: usize) -> i128
    requires i { i < 17 }
    requires j { j < 17 }
    ensures value { result ≡ at cells.now i j }
{
    cells[17 * i + j]
}

/// The bound at one place.
pub(crate) fn read(cells: &Vec<i128>, i: usize, j: usize) -> i128
    requires place { 17 * i + j < length cells.now.items }
    ensures value { result ≡ at cells.now.items i j }
{
    cells[17 * i + j]
}

fn put(cells: &mut Vec<i128>, i: usize, j: usize, c: i128)
    requires place { 17 * i + j < length cells.old.items }
    ensures cells { cells.new.items ≡ slice_set cells.old.items (17 * i + j) c }
{
    cells[17 * i + j] = c;
}

/// The cells as they are, to be read while others are written.
pub(crate) fn copied(cells: &Vec<i128>) -> [i128; 289]
    requires { length cells.now.items ≤ 289 }
    ensures each { (i j : ℕ) → at result i j ≡ at cells.now.items i j }
{
    let mut copy = [0; 289];
    for k in 0..cells.len() {
        copy[k] = cells[k];
    }
    copy
}

fn fill_row<F: Fn(usize, usize) -> i128>(cells: &mut Vec<i128>, n: usize, i: usize, f: &F)
    requires in_range { (n < 17) × (i ≤ n) }
    requires room { length cells.old.items ≡ 17 * (n + 1) }
    requires f { (j : ℕ) → j ≤ n → F.pre f.now i j }
    ensures len { length cells.new.items ≡ 17 * (n + 1) }
    ensures row { (j : ℕ) → j ≤ n → F.post f.now i j (at cells.new.items i j) }
    ensures others { (r j : ℕ) → j < 17 → r ≢ i → at cells.new.items r j ≡ at cells.old.items r j }
{
    for j in 0..n + 1 {
        let c = f(i, j);
        put(cells, i, j, c);
    }
}

/// Writes what f answers at each place.
pub(crate) fn fill<F: Fn(usize, usize) -> i128>(cells: &mut Vec<i128>, n: usize, f: &F)
    requires in_range { n < 17 }
    requires room { length cells.old.items ≡ 17 * (n + 1) }
    requires f { (i j : ℕ) → i ≤ n → j ≤ n → F.pre f.now i j }
    ensures len { length cells.new.items ≡ 17 * (n + 1) }
    ensures each { (i j : ℕ) → i ≤ n → j ≤ n → F.post f.now i j (at cells.new.items i j) }
{
    for i in 0..n + 1 {
        fill_row(cells, n, i, f);
    }
}
