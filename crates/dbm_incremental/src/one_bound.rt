ghost use Rattle.std.specs.Prelude.{◌≡◌, ◌≢◌, ℕ, ◌+◌, ◌*◌, ◌^◌, ◌≤◌, ◌↔◌, ℤ, pos, neg_ℤ, ◌+ℤ◌, ◌<ℤ◌, unsigned_abs, Option, Some, IsTrue};
ghost use Rattle.dbm_matrix.specs.Bounds.{bound, IsWithin, IsRanged};
ghost use Rattle.dbm_matrix.specs.Paths.{IsClosureOf, IsClosed, HasNegativeCycle};
ghost use Rattle.dbm_matrix.specs.Changes.{with_bound};
ghost use Rattle.dbm_matrix.specs.Solutions.{Solves, Meets};

use dbm_matrix::{Closing, Matrix};

// Whether a way back of at most a, and then c, is negative.
fn is_negative(a: Option<i128>, c: i128) -> bool
    requires small { unsigned_abs c ≤ 2 ^ 82 }
    ensures negative { IsTrue result ↔ ((x : ℤ) × (a ≡ Some x) × ((x +ℤ c) <ℤ pos 0)) }
{
    match a {
        Some(a) => a < -c,
        None => false,
    }
}

/// Bounds `v_j - v_i` by c in a closed matrix, and closes it again. It answers as `add_bound` and then `close` do, and
/// leaves the same bounds.
pub fn tighten(m: &mut Matrix, i: usize, j: usize, c: i128) -> Closing
    requires places { (i ≤ m.old.size) × (j ≤ m.old.size) × (i ≢ j) }
    requires closed { IsClosed m.old.size (bound m.old) }
    requires within { IsWithin (2 ^ 124) m.old.size (bound m.old) }
    requires small { unsigned_abs c ≤ 2 ^ 82 }
    ensures size { m.new.size ≡ m.old.size }
    ensures closure { result ≡ Closing.Feasible → IsClosureOf m.old.size (with_bound i j c (bound m.old)) (bound m.new) }
    ensures empty { result ≡ Closing.Empty ↔ HasNegativeCycle m.old.size (with_bound i j c (bound m.old)) }
    ensures closed { result ≡ Closing.Feasible → IsClosed m.new.size (bound m.new) }
    ensures solutions { result ≡ Closing.Feasible → (v : ℕ → ℤ) → Solves m.new.size (bound m.new) v ↔ (Solves m.old.size (bound m.old) v × Meets v i j c) }
    ensures no_solution { result ≡ Closing.Empty → (v : ℕ → ℤ) → Solves m.old.size (bound m.old) v → ¬ (Meets v i j c) }
    ensures ranged { result ≡ Closing.Feasible → (b : ℕ) → IsRanged b m.old.size (bound m.old) → IsRanged b m.new.size (bound m.new) }
    ensures within { result ≡ Closing.Feasible → (b : ℕ) → IsRanged b m.old.size (bound m.old) → IsWithin (2 * b) m.new.size (bound m.new) }
    ensures reach { result ≡ Closing.Feasible → (a b : ℕ) → IsWithin a m.old.size (bound m.old) → unsigned_abs c ≤ b → IsWithin (2 * a + b) m.new.size (bound m.new) }
{
    if is_negative(m.bound(j, i), c) {
        return Closing::Empty;
    }
    m.relax_over(i, j, c);
    Closing::Feasible
}
