ghost use Rattle.std.specs.Prelude.{◌≡◌, ◌≢◌, ℤ, ◌≤◌, ◌^◌, unsigned_abs};
ghost use Rattle.c_values.specs.Conversions.{converted};
ghost use Rattle.intervals.specs.Forms.{cast, truths, turns, wraps};
ghost use Rattle.intervals.specs.Intervals.{Has, IsIn, IsNear};

use crate::interval::{Interval, range_of};
use crate::remainders::is_only_zero;
use c_values::{IntType, least, modulus, wrap};
use int_laws::{difference, is_same};

/// What conversion to `t` makes of the numbers in `a`, which lies within 2^80 either way.
pub fn cast(t: IntType, a: Interval) -> Interval
    requires a { IsNear a }
    ensures value { result ≡ cast t a }
    ensures contains { (z : ℤ) → Has a z → Has result (converted t z) }
    ensures inside { IsIn t result }
{
    compute(t, a)
}

fn compute(t: IntType, a: Interval) -> Interval
    requires a { IsNear a }
    ensures value { result ≡ cast t a }
{
    if t == IntType::Bool {
        return truths(a);
    }
    wraps(t, a)
}

fn truths(a: Interval) -> Interval
    ensures value { result ≡ truths a }
{
    if is_only_zero(a) {
        return Interval { low: 0, high: 0 };
    }
    if 0 < a.low {
        return Interval { low: 1, high: 1 };
    }
    if a.high < 0 {
        return Interval { low: 1, high: 1 };
    }
    Interval { low: 0, high: 1 }
}

fn wraps(t: IntType, a: Interval) -> Interval
    requires a { IsNear a }
    ensures value { result ≡ wraps t a }
{
    if is_same(turns(t, a.low), turns(t, a.high)) {
        return Interval {
            low: wrap(t, a.low),
            high: wrap(t, a.high),
        };
    }
    range_of(t)
}

#[tactic(auto, using(c_values::proofs::Ranges::range, c_values::proofs::Ranges::modulus_small))]
fn turns(t: IntType, z: i128) -> i128
    requires z { unsigned_abs z ≤ 2 ^ 80 }
    ensures value { result ≡ turns t z }
{
    difference(z, least(t)).div_euclid(modulus(t))
}
