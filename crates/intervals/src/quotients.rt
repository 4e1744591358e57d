ghost use Rattle.std.specs.Prelude.{◌≡◌, ◌≢◌, ◌≤◌, ◌^◌, pos, unsigned_abs};
ghost use Rattle.std.specs.Int.RustNames.{int_div};
ghost use Rattle.c_values.specs.declared.operator.Op.TheVariants as ops;
ghost use Rattle.intervals.specs.Forms.{above, below, binary, corners};
ghost use Rattle.intervals.specs.Intervals.{mapped, span};

use crate::fitting::{fit_option, hull_of_four};
use crate::interval::{Interval, join_options};
use c_values::IntType;
use int_laws::quotient;

pub fn divide(t: IntType, a: Interval, b: Interval) -> Option<Interval>
    requires a { (unsigned_abs a.low ≤ 2 ^ 125) × (unsigned_abs a.high ≤ 2 ^ 125) }
    ensures value { result ≡ binary ops.Div t a b }
{
    fit_option(
        t,
        join_options(quotients_above(a, b), quotients_below(a, b)),
    )
}

fn quotients_above(a: Interval, b: Interval) -> Option<Interval>
    requires a { (unsigned_abs a.low ≤ 2 ^ 125) × (unsigned_abs a.high ≤ 2 ^ 125) }
    ensures value { result ≡ mapped (corners int_div a) (above b) }
{
    if b.high < 1 {
        return None;
    }
    quotients_by(a, b.low.max(1), b.high)
}

fn quotients_below(a: Interval, b: Interval) -> Option<Interval>
    requires a { (unsigned_abs a.low ≤ 2 ^ 125) × (unsigned_abs a.high ≤ 2 ^ 125) }
    ensures value { result ≡ mapped (corners int_div a) (below b) }
{
    if -1 < b.low {
        return None;
    }
    quotients_by(a, b.low, b.high.min(-1))
}

// The quotients by the divisors from low to high, which have one sign.
fn quotients_by(a: Interval, low: i128, high: i128) -> Option<Interval>
    requires a { (unsigned_abs a.low ≤ 2 ^ 125) × (unsigned_abs a.high ≤ 2 ^ 125) }
    requires divisors { (low ≢ pos 0) × (high ≢ pos 0) }
    ensures value { result ≡ mapped (corners int_div a) (span low high) }
{
    if high < low {
        return None;
    }
    Some(quotient_corners(a, Interval { low, high }))
}

fn quotient_corners(a: Interval, b: Interval) -> Interval
    requires a { (unsigned_abs a.low ≤ 2 ^ 125) × (unsigned_abs a.high ≤ 2 ^ 125) }
    requires b { (b.low ≢ pos 0) × (b.high ≢ pos 0) }
    ensures value { result ≡ corners int_div a b }
{
    hull_of_four(
        quotient(a.low, b.low),
        quotient(a.low, b.high),
        quotient(a.high, b.low),
        quotient(a.high, b.high),
    )
}
