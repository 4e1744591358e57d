ghost use Rattle.std.specs.Prelude.{◌≡◌, ℕ, ◌*◌, ◌^◌, ◌<◌, ◌≤◌, ◌↔◌, ℤ, List, [], ◌∷◌, ◌++◌, length, take};
ghost use Rattle.dbm_matrix.specs.Bounds.{bound, IsWithin, IsRanged};
ghost use Rattle.dbm_matrix.specs.Paths.{IsClosureOf, IsClosed, HasNegativeCycle};
ghost use Rattle.dbm_matrix.specs.Solutions.{Solves};
ghost use Rattle.dbm_incremental.specs.Adding.{AllFit, with_bounds, MeetsAll};

use dbm_matrix::{Closing, Matrix};
use std::marker::Model;

/// Up to 32 bounds that wait to be added to a matrix together, in the order in which they came.
#[derive(Drop)]
pub struct Pending {
    count: usize,
    bounds: [(usize, usize, i128); 32],
}

impl Model for Pending {
    ghost use Rattle.std.specs.Prelude.{◌≡◌, ℕ, ◌≤◌, ℤ, List, length, take};

    ghost Value = { List (ℕ × ℕ × ℤ) };

    ghost view = { λ p. take p.count p.bounds };

    ghost invariant = { λ p. (p.count ≤ 32) × (length p.bounds ≡ 32) };
}

impl Pending {
    /// No bounds.
    pub fn new() -> Pending
        ensures empty { result ≡ [] }
    {
        Pending {
            count: 0,
            bounds: [(0, 0, 0); 32],
        }
    }

    /// Keeps a bound c of `v_j - v_i`.
    pub fn push(&mut self, i: usize, j: usize, c: i128)
        requires room { length self.old < 32 }
        ensures kept { self.new ≡ self.old ++ (i, j, c) ∷ [] }
    {
        self.bounds[self.count] = (i, j, c);
        self.count += 1;
    }

    /// Adds all that was kept to a closed matrix, closes it again, and keeps nothing more. It answers as `add_bound` for
    /// each and then `close` do, and leaves the same bounds.
    pub fn flush(&mut self, m: &mut Matrix) -> Closing
        requires fit { AllFit m.old.size self.old }
        requires closed { IsClosed m.old.size (bound m.old) }
        requires within { IsWithin (2 ^ 90) m.old.size (bound m.old) }
        ensures emptied { self.new ≡ [] }
        ensures size { m.new.size ≡ m.old.size }
        ensures closure { result ≡ Closing.Feasible → IsClosureOf m.old.size (with_bounds self.old (bound m.old)) (bound m.new) }
        ensures empty { result ≡ Closing.Empty ↔ HasNegativeCycle m.old.size (with_bounds self.old (bound m.old)) }
        ensures closed { result ≡ Closing.Feasible → IsClosed m.new.size (bound m.new) }
        ensures solutions { result ≡ Closing.Feasible → (v : ℕ → ℤ) → Solves m.new.size (bound m.new) v ↔ (Solves m.old.size (bound m.old) v × MeetsAll self.old v) }
        ensures no_solution { result ≡ Closing.Empty → (v : ℕ → ℤ) → Solves m.old.size (bound m.old) v → ¬ (MeetsAll self.old v) }
        ensures ranged { result ≡ Closing.Feasible → (b : ℕ) → IsRanged b m.old.size (bound m.old) → IsRanged b m.new.size (bound m.new) }
        ensures within { result ≡ Closing.Feasible → (b : ℕ) → IsRanged b m.old.size (bound m.old) → IsWithin (2 * b) m.new.size (bound m.new) }
    {
        add_all(m, &self.bounds[..self.count]);
        self.count = 0;
        m.close()
    }
}

fn add_all(m: &mut Matrix, bounds: &[(usize, usize, i128)])
    requires fit { AllFit m.old.size bounds.now }
    requires within { IsWithin (2 ^ 90) m.old.size (bound m.old) }
    ensures size { m.new.size ≡ m.old.size }
    ensures bounds { (p q : ℕ) → p ≤ m.old.size → q ≤ m.old.size → bound m.new p q ≡ with_bounds bounds.now (bound m.old) p q }
    ensures within { IsWithin (2 ^ 90) m.new.size (bound m.new) }
    ensures ranged { (b : ℕ) → IsRanged b m.old.size (bound m.old) → IsRanged b m.new.size (bound m.new) }
    ensures solutions { (v : ℕ → ℤ) → Solves m.new.size (bound m.new) v ↔ (Solves m.old.size (bound m.old) v × MeetsAll bounds.now v) }
{
    let mut rest = bounds;
    while let Some((&(i, j, c), tail)) = rest.split_first() {
        m.add_bound(i, j, c);
        rest = tail;
    }
}
