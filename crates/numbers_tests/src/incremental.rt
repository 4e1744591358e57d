ghost use Rattle.std.specs.Prelude.{◌≡◌, ℕ, ◌^◌, ◌≤◌};
ghost use Rattle.dbm_matrix.specs.Bounds.{bound, IsWithin};
ghost use Rattle.dbm_matrix.specs.Paths.{IsClosed};

use dbm_incremental::{Pending, tighten};
use dbm_matrix::{Closing, Matrix};
use std::process::Abort;
use std::test::Fail;

// Two variables from 0 to 10.
fn closed_ranges(rt: &impl Abort) -> Matrix
    ensures size { result.size ≡ 2 }
    ensures closed { IsClosed result.size (bound result) }
    ensures within { IsWithin 20 result.size (bound result) }
{
    let mut m = Matrix::new(&[(0, 10), (0, 10)]);
    assert!(rt; m.close() == Closing::Feasible);
    m
}

// Bounds the second variable by the first, less three.
fn must_tighten(rt: &impl Abort, m: &mut Matrix)
    requires size { m.old.size ≡ 2 }
    requires closed { IsClosed m.old.size (bound m.old) }
    requires within { IsWithin 20 m.old.size (bound m.old) }
    ensures size { m.new.size ≡ 2 }
    ensures closed { IsClosed m.new.size (bound m.new) }
    ensures within { IsWithin (2 ^ 124) m.new.size (bound m.new) }
{
    assert!(rt; tighten(m, 1, 2, -3) == Closing::Feasible);
}

#[test]
fn one_bound(rt: HostRuntime) -> Result<(), Fail> {
    let mut m = closed_ranges(&rt);
    must_tighten(&rt, &mut m);
    assert!(rt; (m.bound(1, 0), m.bound(0, 1)) == (Some(-3), Some(10)));
    assert!(rt; (m.bound(2, 0), m.bound(0, 2)) == (Some(0), Some(7)));
    assert!(rt; tighten(&mut m, 2, 1, 2) == Closing::Empty);
    Ok(())
}

#[test]
fn two_bounds(rt: HostRuntime) -> Result<(), Fail> {
    let mut m = closed_ranges(&rt);
    let mut pending = Pending::new();
    pending.push(1, 2, -3);
    pending.push(2, 1, 2);
    assert!(rt; pending.flush(&mut m) == Closing::Empty);
    Ok(())
}
