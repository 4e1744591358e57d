// The cells of a matrix: rows of 17, of which the first n + 1 places of the first n + 1 rows are in use.

ghost use Rattle.std.specs.Prelude.{◌≡◌, ◌≢◌, ℕ, ◌+◌, ◌*◌, ◌^◌, ◌<◌, ◌≤◌, length, slice_index_or, slice_set, unsigned_abs, Option, None};
ghost use Rattle.dbm_matrix.specs.Bounds.{at, IsWithin};
ghost use Rattle.dbm_matrix.specs.Changes.{plus};

use crate::values::add;

pub(crate) type Cells = [Option<i128>; 289];

pub(crate) fn get(cells: &Cells, i: usize, j: usize) -> Option<i128>
    requires i { i < 17 }
    requires j { j < 17 }
    ensures value { result ≡ at cells.now i j }
{
    cells[17 * i + j]
}

pub(crate) fn put(cells: &mut Cells, i: usize, j: usize, c: Option<i128>)
    requires i { i < 17 }
    requires j { j < 17 }
    ensures cells { cells.new ≡ slice_set cells.old (17 * i + j) c }
{
    cells[17 * i + j] = c;
}

// The bounds from i to each variable up to n.
pub(crate) fn row(cells: &Cells, n: usize, i: usize) -> [Option<i128>; 17]
    requires in_range { (n < 17) × (i ≤ n) }
    ensures each { (k : ℕ) → k ≤ n → slice_index_or result k None ≡ at cells.now i k }
{
    let mut bounds = [None; 17];
    for k in 0..n + 1 {
        bounds[k] = get(cells, i, k);
    }
    bounds
}

// The bounds from each variable up to n to j, with c added.
pub(crate) fn column_plus(cells: &Cells, n: usize, j: usize, c: i128) -> [Option<i128>; 17]
    requires in_range { (n < 17) × (j ≤ n) }
    requires within { IsWithin (2 ^ 124) n (at cells.now) }
    requires small { unsigned_abs c ≤ 2 ^ 82 }
    ensures each { (k : ℕ) → k ≤ n → slice_index_or result k None ≡ plus (at cells.now k j) c }
{
    let mut bounds = [None; 17];
    for k in 0..n + 1 {
        bounds[k] = add(get(cells, k, j), c);
    }
    bounds
}

fn revise_row<F: Fn(usize, usize, Option<i128>) -> Option<i128>>(
    cells: &mut Cells,
    n: usize,
    i: usize,
    f: &F,
)
    requires in_range { (n < 17) × (i ≤ n) }
    requires f { (j : ℕ) → j ≤ n → F.pre f.now i j (at cells.old i j) }
    ensures len { length cells.new ≡ 289 }
    ensures row { (j : ℕ) → j ≤ n → F.post f.now i j (at cells.old i j) (at cells.new i j) }
    ensures others { (r j : ℕ) → j < 17 → r ≢ i → at cells.new r j ≡ at cells.old r j }
{
    for j in 0..n + 1 {
        let c = f(i, j, get(cells, i, j));
        put(cells, i, j, c);
    }
}

// Puts in each place what f answers for the place and the bound there.
pub(crate) fn revise<F: Fn(usize, usize, Option<i128>) -> Option<i128>>(
    cells: &mut Cells,
    n: usize,
    f: &F,
)
    requires in_range { n < 17 }
    requires f { (i j : ℕ) → i ≤ n → j ≤ n → F.pre f.now i j (at cells.old i j) }
    ensures len { length cells.new ≡ 289 }
    ensures each { (i j : ℕ) → i ≤ n → j ≤ n → F.post f.now i j (at cells.old i j) (at cells.new i j) }
{
    for i in 0..n + 1 {
        revise_row(cells, n, i, f);
    }
}

// Both places of v and k, unless the two are one.
fn revise_pair<F: Fn(usize, usize, Option<i128>) -> Option<i128>>(
    cells: &mut Cells,
    v: usize,
    k: usize,
    f: &F,
)
    requires in_range { (v < 17) × (k < 17) }
    requires to { k ≢ v → F.pre f.now k v (at cells.old k v) }
    requires from { k ≢ v → F.pre f.now v k (at cells.old v k) }
    ensures len { length cells.new ≡ 289 }
    ensures to { k ≢ v → F.post f.now k v (at cells.old k v) (at cells.new k v) }
    ensures from { k ≢ v → F.post f.now v k (at cells.old v k) (at cells.new v k) }
    ensures here { at cells.new v v ≡ at cells.old v v }
    ensures others { (r s : ℕ) → s < 17 → ¬ ((r ≡ k) × (s ≡ v)) → ¬ ((r ≡ v) × (s ≡ k)) → at cells.new r s ≡ at cells.old r s }
{
    if k == v {
        return;
    }
    let to = f(k, v, get(cells, k, v));
    put(cells, k, v, to);
    let from = f(v, k, get(cells, v, k));
    put(cells, v, k, from);
}

// Puts what f answers in the places between v and each other variable.
pub(crate) fn revise_around<F: Fn(usize, usize, Option<i128>) -> Option<i128>>(
    cells: &mut Cells,
    n: usize,
    v: usize,
    f: &F,
)
    requires in_range { (n < 17) × (v ≤ n) }
    requires to { (k : ℕ) → k ≤ n → k ≢ v → F.pre f.now k v (at cells.old k v) }
    requires from { (k : ℕ) → k ≤ n → k ≢ v → F.pre f.now v k (at cells.old v k) }
    ensures len { length cells.new ≡ 289 }
    ensures to { (k : ℕ) → k ≤ n → k ≢ v → F.post f.now k v (at cells.old k v) (at cells.new k v) }
    ensures from { (k : ℕ) → k ≤ n → k ≢ v → F.post f.now v k (at cells.old v k) (at cells.new v k) }
    ensures here { at cells.new v v ≡ at cells.old v v }
    ensures others { (i j : ℕ) → j < 17 → i ≢ v → j ≢ v → at cells.new i j ≡ at cells.old i j }
{
    for k in 0..n + 1 {
        revise_pair(cells, v, k, f);
    }
}
