ghost use Rattle.std.specs.Prelude.{◌≡◌, ℕ, ◌*◌, ◌^◌};
ghost use Rattle.dbm_matrix.specs.Bounds.{bound, IsRanged, IsWithin};
ghost use Rattle.dbm_matrix.specs.Paths.{IsClosed};

use dbm_matrix::{Closing, Matrix};
use std::process::Abort;
use std::test::Fail;

fn must_close(rt: &impl Abort, m: &mut Matrix)
    requires within { IsWithin (2 ^ 90) m.old.size (bound m.old) }
    ensures size { m.new.size ≡ m.old.size }
    ensures closed { IsClosed m.new.size (bound m.new) }
    ensures ranged { (b : ℕ) → IsRanged b m.old.size (bound m.old) → IsRanged b m.new.size (bound m.new) }
    ensures within { (b : ℕ) → IsRanged b m.old.size (bound m.old) → IsWithin (2 * b) m.new.size (bound m.new) }
{
    assert!(rt; m.close() == Closing::Feasible);
}

#[test]
fn two_ranges(rt: HostRuntime) -> Result<(), Fail> {
    let mut m = Matrix::new(&[(0, 10), (0, 10)]);
    m.add_bound(1, 2, -3);
    must_close(&rt, &mut m);
    assert!(rt; m.bounds_of(1) == (3, 10));
    assert!(rt; m.bounds_of(2) == (0, 7));
    m.add_bound(2, 1, 2);
    assert!(rt; m.close() == Closing::Empty);
    Ok(())
}

#[test]
fn changes(rt: HostRuntime) -> Result<(), Fail> {
    let mut m = Matrix::new(&[(0, 10), (0, 10)]);
    assert!(rt; m.size() == 2);
    must_close(&rt, &mut m);
    let mut other = m;
    other.shift(1, 5);
    assert!(rt; (other.bound(0, 1), other.bound(1, 0)) == (Some(15), Some(-5)));
    m.join(&other);
    assert!(rt; (m.bound(0, 1), m.bound(1, 2)) == (Some(15), Some(10)));
    other.widen(&m);
    assert!(rt; (other.bound(0, 1), other.bound(1, 0)) == (Some(15), None));
    m.relax_over(0, 1, 12);
    assert!(rt; (m.bound(0, 1), m.bound(2, 1)) == (Some(12), Some(12)));
    Ok(())
}

#[test]
fn copies(rt: HostRuntime) -> Result<(), Fail> {
    let mut m = Matrix::new(&[(0, 10), (0, 10)]);
    must_close(&rt, &mut m);
    m.forget(2);
    assert!(rt; (m.bound(0, 2), m.bound(0, 1)) == (None, Some(10)));
    m.copy(2, 1, 3);
    assert!(rt; m.close() == Closing::Feasible);
    assert!(rt; (m.bound(0, 2), m.bound(2, 0)) == (Some(13), Some(-3)));
    Ok(())
}
