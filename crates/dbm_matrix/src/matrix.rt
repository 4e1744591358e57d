ghost use Rattle.std.specs.Prelude.{◌≡◌, ◌≢◌, ℕ, ◌+◌, ◌*◌, ◌^◌, ◌<◌, ◌≤◌, ◌↔◌, length, ℤ, pos, neg_ℤ, ◌+ℤ◌, ◌≤ℤ◌, unsigned_abs, slice_index_or, Option, Some, None, ◌==◌, cond};
ghost use Rattle.dbm_matrix.specs.Bounds.{bound, IsWithin, IsRanged, Stands};
ghost use Rattle.dbm_matrix.specs.Paths.{IsClosureOf, IsClosed, HasNegativeCycle};
ghost use Rattle.dbm_matrix.specs.Changes.{initial, low, high, AreWithin, with_bound, over, forgotten, shifted, copied, lesser, greater, stable, plus, sum_of};
ghost use Rattle.dbm_matrix.specs.Solutions.{Solves, Meets, assigned, IsInside};

use crate::cells::{column_plus, get, put, revise, revise_around, row};
use crate::closing::{Closing, close};
use crate::values::{add, keep_stable, max, min, negated, sum};
use std::marker::Model;

/// Bounds on the differences of 1 to 16 integer variables, numbered from 1, and the constant zero, number 0. The bound at
/// i and j is that of `v_j - v_i`: so the first row has the bounds of the variables, the first column those of their negations.
#[derive(Clone, Copy)]
pub struct Matrix {
    size: usize,
    cells: [Option<i128>; 289],
}

impl Model for Matrix {
    ghost use Rattle.std.specs.Prelude.{◌≡◌, ℕ, ◌≤◌, length};
    ghost use Rattle.dbm_matrix.specs.Bounds.{Bounds};

    ghost Value = { Bounds };

    ghost view = { λ m. record { size = m.size; cells = m.cells } };

    ghost invariant = { λ m. (1 ≤ m.size) × (m.size ≤ 16) × (length m.cells ≡ 289) };

    ghost inverse = { λ d. record { size = d.size; cells = d.cells } };
}

impl Matrix {
    /// A matrix of the variables' ranges in order, the low end first. It has no bound between two variables, so it is not
    /// closed where there are two.
    pub fn new(ranges: &[(i128, i128)]) -> Matrix
        requires count { (1 ≤ length ranges.now) × (length ranges.now ≤ 16) }
        requires within { AreWithin (2 ^ 80) ranges.now }
        ensures size { result.size ≡ length ranges.now }
        ensures bounds { (i j : ℕ) → i ≤ result.size → j ≤ result.size → bound result i j ≡ initial ranges.now i j }
        ensures within { (b : ℕ) → AreWithin b ranges.now → IsWithin b result.size (bound result) }
        ensures ranged { (b : ℕ) → AreWithin b ranges.now → IsRanged b result.size (bound result) }
        ensures solutions { (v : ℕ → ℤ) → Solves result.size (bound result) v ↔ IsInside ranges.now v }
    {
        let size = ranges.len();
        let mut cells = [None; 289];
        revise(
            &mut cells,
            size,
            &|i: usize, j: usize, _: Option<i128>| -> Option<i128>
                requires { (i ≤ length ranges.now) × (j ≤ length ranges.now) × AreWithin (2 ^ 80) ranges.now }
                ensures { result ≡ initial ranges.entry.now i j }
            {
                if i == j {
                    Some(0)
                } else if i == 0 {
                    Some(ranges[j - 1].1)
                } else if j == 0 {
                    Some(negated(ranges[i - 1].0))
                } else {
                    None
                }
            },
        );
        Matrix { size, cells }
    }

    /// The number of variables, the constant zero left out.
    pub fn size(&self) -> usize
        ensures size { result ≡ self.now.size }
        ensures range { (1 ≤ result) × (result ≤ 16) }
    {
        self.size
    }

    /// The bound of `v_j - v_i`, None for no bound.
    pub fn bound(&self, i: usize, j: usize) -> Option<i128>
        requires places { (i ≤ self.now.size) × (j ≤ self.now.size) }
        ensures bound { result ≡ bound self.now i j }
    {
        get(&self.cells, i, j)
    }

    /// Bounds `v_j - v_i` by c, where no lesser bound stands. The matrix may then be no longer closed.
    pub fn add_bound(&mut self, i: usize, j: usize, c: i128)
        requires places { (i ≤ self.old.size) × (j ≤ self.old.size) × (i ≢ j) }
        ensures size { self.new.size ≡ self.old.size }
        ensures bounds { (p q : ℕ) → p ≤ self.old.size → q ≤ self.old.size → bound self.new p q ≡ with_bound i j c (bound self.old) p q }
        ensures within { (b : ℕ) → unsigned_abs c ≤ b → IsWithin b self.old.size (bound self.old) → IsWithin b self.new.size (bound self.new) }
        ensures ranged { (b : ℕ) → IsRanged b self.old.size (bound self.old) → IsRanged b self.new.size (bound self.new) }
        ensures solutions { (v : ℕ → ℤ) → Solves self.new.size (bound self.new) v ↔ (Solves self.old.size (bound self.old) v × Meets v i j c) }
    {
        let least = min(get(&self.cells, i, j), Some(c));
        put(&mut self.cells, i, j, least);
    }

    /// Gives each pair of variables the least weight of a path between them. After Empty the bounds mean nothing.
    pub fn close(&mut self) -> Closing
        requires within { IsWithin (2 ^ 90) self.old.size (bound self.old) }
        ensures size { self.new.size ≡ self.old.size }
        ensures closure { result ≡ Closing.Feasible → IsClosureOf self.old.size (bound self.old) (bound self.new) }
        ensures empty { result ≡ Closing.Empty ↔ HasNegativeCycle self.old.size (bound self.old) }
        ensures closed { result ≡ Closing.Feasible → IsClosed self.new.size (bound self.new) }
        ensures solutions { result ≡ Closing.Feasible → (v : ℕ → ℤ) → Solves self.new.size (bound self.new) v ↔ Solves self.old.size (bound self.old) v }
        ensures no_solution { result ≡ Closing.Empty → (v : ℕ → ℤ) → ¬ (Solves self.old.size (bound self.old) v) }
        ensures ranged { result ≡ Closing.Feasible → (b : ℕ) → IsRanged b self.old.size (bound self.old) → IsRanged b self.new.size (bound self.new) }
        ensures within { result ≡ Closing.Feasible → (b : ℕ) → IsRanged b self.old.size (bound self.old) → IsWithin (2 * b) self.new.size (bound self.new) }
    {
        close(&mut self.cells, self.size)
    }

    /// The greater of each two bounds, and no bound where either has none.
    pub fn join(&mut self, other: &Matrix)
        requires size { self.old.size ≡ other.now.size }
        requires closed { IsClosed self.old.size (bound self.old) }
        requires other_closed { IsClosed other.now.size (bound other.now) }
        ensures size { self.new.size ≡ self.old.size }
        ensures bounds { (i j : ℕ) → i ≤ self.old.size → j ≤ self.old.size → bound self.new i j ≡ greater (bound self.old i j) (bound other.now i j) }
        ensures closed { IsClosed self.new.size (bound self.new) }
        ensures within { (b : ℕ) → IsWithin b self.old.size (bound self.old) → IsWithin b other.now.size (bound other.now) → IsWithin b self.new.size (bound self.new) }
        ensures ranged { (b : ℕ) → IsRanged b self.old.size (bound self.old) → IsRanged b other.now.size (bound other.now) → IsRanged b self.new.size (bound self.new) }
        ensures solutions { (v : ℕ → ℤ) → Solves self.old.size (bound self.old) v → Solves self.new.size (bound self.new) v }
        ensures other_solutions { (v : ℕ → ℤ) → Solves other.now.size (bound other.now) v → Solves self.new.size (bound self.new) v }
    {
        revise(
            &mut self.cells,
            self.size,
            &|i: usize, j: usize, c: Option<i128>| -> Option<i128>
                requires { (i ≤ other.now.size) × (j ≤ other.now.size) }
                ensures { result ≡ greater c (bound other.entry.now i j) }
            { max(c, other.bound(i, j)) },
        );
    }

    /// Keeps each bound where the other's is not greater, and drops it otherwise. The matrix may then be no longer closed.
    pub fn widen(&mut self, other: &Matrix)
        requires size { self.old.size ≡ other.now.size }
        requires other_closed { IsClosed other.now.size (bound other.now) }
        ensures size { self.new.size ≡ self.old.size }
        ensures bounds { (i j : ℕ) → i ≤ self.old.size → j ≤ self.old.size → bound self.new i j ≡ stable (bound self.old i j) (bound other.now i j) }
        ensures within { (b : ℕ) → IsWithin b self.old.size (bound self.old) → IsWithin b self.new.size (bound self.new) }
        ensures solutions { (v : ℕ → ℤ) → Solves self.old.size (bound self.old) v → Solves self.new.size (bound self.new) v }
        ensures other_solutions { (v : ℕ → ℤ) → Solves other.now.size (bound other.now) v → Solves self.new.size (bound self.new) v }
    {
        revise(
            &mut self.cells,
            self.size,
            &|i: usize, j: usize, c: Option<i128>| -> Option<i128>
                requires { (i ≤ other.now.size) × (j ≤ other.now.size) }
                ensures { result ≡ stable c (bound other.entry.now i j) }
            { keep_stable(c, other.bound(i, j)) },
        );
    }

    /// Drops every bound between v and another variable, the constant zero included.
    pub fn forget(&mut self, v: usize)
        requires place { (1 ≤ v) × (v ≤ self.old.size) }
        requires closed { IsClosed self.old.size (bound self.old) }
        ensures size { self.new.size ≡ self.old.size }
        ensures bounds { (i j : ℕ) → i ≤ self.old.size → j ≤ self.old.size → bound self.new i j ≡ forgotten v (bound self.old) i j }
        ensures closed { IsClosed self.new.size (bound self.new) }
        ensures within { (b : ℕ) → IsWithin b self.old.size (bound self.old) → IsWithin b self.new.size (bound self.new) }
        ensures solutions { (w : ℕ → ℤ) (z : ℤ) → Solves self.old.size (bound self.old) w → Solves self.new.size (bound self.new) (assigned v z w) }
        ensures no_more { (w : ℕ → ℤ) → Solves self.new.size (bound self.new) w → (z : ℤ) × Solves self.old.size (bound self.old) (assigned v z w) }
    {
        revise_around(
            &mut self.cells,
            self.size,
            v,
            &|_: usize, _: usize, _: Option<i128>| -> Option<i128>
                ensures { result ≡ None }
            { None },
        );
    }

    /// Adds c to the variable v.
    pub fn shift(&mut self, v: usize, c: i128)
        requires place { (1 ≤ v) × (v ≤ self.old.size) }
        requires closed { IsClosed self.old.size (bound self.old) }
        requires within { IsWithin (2 ^ 89) self.old.size (bound self.old) }
        requires small { unsigned_abs c ≤ 2 ^ 82 }
        ensures size { self.new.size ≡ self.old.size }
        ensures bounds { (i j : ℕ) → i ≤ self.old.size → j ≤ self.old.size → bound self.new i j ≡ shifted v c (bound self.old) i j }
        ensures closed { IsClosed self.new.size (bound self.new) }
        ensures within { (b : ℕ) → IsWithin b self.old.size (bound self.old) → IsWithin (b + unsigned_abs c) self.new.size (bound self.new) }
        ensures ranged { (b : ℕ) → IsRanged b self.old.size (bound self.old) → IsRanged (b + unsigned_abs c) self.new.size (bound self.new) }
        ensures solutions { (w : ℕ → ℤ) → Solves self.old.size (bound self.old) w ↔ Solves self.new.size (bound self.new) (assigned v (w v +ℤ c) w) }
    {
        revise_around(
            &mut self.cells,
            self.size,
            v,
            &|i: usize, _: usize, a: Option<i128>| -> Option<i128>
                requires { ((x : ℤ) → a ≡ Some x → unsigned_abs x ≤ 2 ^ 89) × (unsigned_abs c ≤ 2 ^ 82) }
                ensures { result ≡ cond (i == v) (plus a (neg_ℤ c)) (plus a c) }
            {
                if i == v {
                    add(a, negated(c))
                } else {
                    add(a, c)
                }
            },
        );
    }

    /// Forgets `to`, and bounds it to `from + c`, where `from` may be the constant zero. The matrix is then to be closed.
    pub fn copy(&mut self, to: usize, from: usize, c: i128)
        requires places { (1 ≤ to) × (to ≤ self.old.size) × (from ≤ self.old.size) × (to ≢ from) }
        requires closed { IsClosed self.old.size (bound self.old) }
        requires small { unsigned_abs c ≤ 2 ^ 82 }
        ensures size { self.new.size ≡ self.old.size }
        ensures bounds { (i j : ℕ) → i ≤ self.old.size → j ≤ self.old.size → bound self.new i j ≡ copied to from c (bound self.old) i j }
        ensures within { (b : ℕ) → unsigned_abs c ≤ b → IsWithin b self.old.size (bound self.old) → IsWithin b self.new.size (bound self.new) }
        ensures solutions { (w : ℕ → ℤ) → Solves self.old.size (bound self.old) w → Solves self.new.size (bound self.new) (assigned to (w from +ℤ c) w) }
        ensures equal { (w : ℕ → ℤ) → Solves self.new.size (bound self.new) w → w to ≡ w from +ℤ c }
        ensures no_more { (w : ℕ → ℤ) → Solves self.new.size (bound self.new) w → (z : ℤ) × Solves self.old.size (bound self.old) (assigned to z w) }
    {
        revise_around(
            &mut self.cells,
            self.size,
            to,
            &|i: usize, j: usize, _: Option<i128>| -> Option<i128>
                requires { unsigned_abs c ≤ 2 ^ 82 }
                ensures { result ≡ cond (i == from) (Some c) (cond (j == from) (Some (neg_ℤ c)) None) }
            {
                if i == from {
                    Some(c)
                } else if j == from {
                    Some(negated(c))
                } else {
                    None
                }
            },
        );
    }

    /// The least and the greatest value of v, the least first.
    pub fn bounds_of(&self, v: usize) -> (i128, i128)
        requires place { v ≤ self.now.size }
        requires closed { IsClosed self.now.size (bound self.now) }
        requires within { IsWithin (2 ^ 90) self.now.size (bound self.now) }
        requires bounded { Stands (bound self.now v 0) × Stands (bound self.now 0 v) }
        ensures low { bound self.now v 0 ≡ Some (neg_ℤ result.0) }
        ensures high { bound self.now 0 v ≡ Some result.1 }
        ensures solutions { (w : ℕ → ℤ) → Solves self.now.size (bound self.now) w → (result.0 ≤ℤ w v) × (w v ≤ℤ result.1) }
    {
        match (self.bound(v, 0), self.bound(0, v)) {
            (Some(low), Some(high)) => (negated(low), high),
            (Some(_), None) => unreachable!(),
            (None, _) => unreachable!(),
        }
    }

    /// Each bound, or the way over a bound c of `v_j - v_i` where that is less, all from the bounds as they were.
    pub fn relax_over(&mut self, i: usize, j: usize, c: i128)
        requires places { (i ≤ self.old.size) × (j ≤ self.old.size) }
        requires within { IsWithin (2 ^ 124) self.old.size (bound self.old) }
        requires small { unsigned_abs c ≤ 2 ^ 82 }
        ensures size { self.new.size ≡ self.old.size }
        ensures bounds { (p q : ℕ) → p ≤ self.old.size → q ≤ self.old.size → bound self.new p q ≡ over i j c (bound self.old) p q }
        ensures within { (a b : ℕ) → IsWithin a self.old.size (bound self.old) → unsigned_abs c ≤ b → IsWithin (2 * a + b) self.new.size (bound self.new) }
        ensures ranged { (b : ℕ) → IsRanged b self.old.size (bound self.old) → IsRanged b self.new.size (bound self.new) }
        ensures solutions { (v : ℕ → ℤ) → Solves self.old.size (bound self.old) v → Meets v i j c → Solves self.new.size (bound self.new) v }
        ensures no_more { (v : ℕ → ℤ) → Solves self.new.size (bound self.new) v → Solves self.old.size (bound self.old) v }
    {
        let to = column_plus(&self.cells, self.size, i, c);
        let from = row(&self.cells, self.size, j);
        revise(
            &mut self.cells,
            self.size,
            &|p: usize, q: usize, a: Option<i128>| -> Option<i128>
                requires { (p < 17) × (q < 17)
                    × ((x : ℤ) → slice_index_or to p None ≡ Some x → unsigned_abs x ≤ 2 ^ 125)
                    × ((x : ℤ) → slice_index_or from q None ≡ Some x → unsigned_abs x ≤ 2 ^ 125) }
                ensures { result ≡ lesser a (sum_of (slice_index_or to p None) (slice_index_or from q None)) }
            { min(a, sum(to[p], from[q])) },
        );
    }
}
