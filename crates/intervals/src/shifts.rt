ghost use Rattle.std.specs.Prelude.{◌≡◌, ◌-ℤ◌, IfSome, Some, pos};
ghost use Rattle.std.specs.Int.{int_max, int_min};
ghost use Rattle.c_values.specs.declared.operator.Op.TheVariants as ops;
ghost use Rattle.c_values.specs.Types.{is_signed, width};
ghost use Rattle.intervals.specs.Forms.{AreCounts, AreNatural, binary, counts, floor_by, left_all, naturals_with, right_by};
ghost use Rattle.intervals.specs.Intervals.{IsIn};

use crate::fitting::fit;
use crate::interval::{Interval, span};
use c_values::{IntType, is_signed, over_power, times_power, width};

pub fn shift_left(t: IntType, a: Interval, b: Interval) -> Option<Interval>
    requires a { IsIn t a }
    ensures value { result ≡ binary ops.Shl t a b }
{
    match counts(t, b) {
        Some(c) => return left_by_counts(t, a, c),
        None => return None,
    }
}

pub fn shift_right(t: IntType, a: Interval, b: Interval) -> Option<Interval>
    ensures value { result ≡ binary ops.Shr t a b }
{
    match counts(t, b) {
        Some(c) => return Some(right_by_counts(a, c)),
        None => return None,
    }
}

// The counts by which a value of the type can be shifted.
#[tactic(auto, using(crate::proofs::ShiftLaws::counts_are))]
fn counts(t: IntType, b: Interval) -> Option<Interval>
    ensures value { result ≡ counts t b }
    ensures range { IfSome result (λ c. AreCounts c) }
{
    counts_to(t, b, last_count(t))
}

fn counts_to(t: IntType, b: Interval, last: i128) -> Option<Interval>
    requires last { last ≡ pos (width t) -ℤ pos 1 }
    ensures value { result ≡ counts t b }
{
    span(b.low.max(0), b.high.min(last))
}

#[tactic(auto, using(c_values::proofs::Ranges::width_is))]
fn last_count(t: IntType) -> i128
    ensures value { result ≡ pos (width t) -ℤ pos 1 }
{
    width(t) as i128 - 1
}

fn left_by_counts(t: IntType, a: Interval, c: Interval) -> Option<Interval>
    requires a { IsIn t a }
    requires c { AreCounts c }
    ensures value { result ≡ left_all t c (naturals_with (is_signed t) a) }
{
    match naturals(t, a) {
        Some(a) => return left_of_naturals(t, a, c),
        None => return None,
    }
}

// Of a signed type the values from 0.
#[tactic(auto, using(crate::proofs::ShiftLaws::naturals_are))]
fn naturals(t: IntType, a: Interval) -> Option<Interval>
    requires a { IsIn t a }
    ensures value { result ≡ naturals_with (is_signed t) a }
    ensures range { IfSome result (λ i. AreNatural i) }
{
    if is_signed(t) {
        return span(a.low.max(0), a.high);
    }
    Some(a)
}

fn left_of_naturals(t: IntType, a: Interval, c: Interval) -> Option<Interval>
    requires a { AreNatural a }
    requires c { AreCounts c }
    ensures value { result ≡ left_all t c (Some a) }
{
    fit(t, times_power(a.low, c.low), times_power(a.high, c.high))
}

fn right_by_counts(a: Interval, c: Interval) -> Interval
    requires c { AreCounts c }
    ensures value { result ≡ right_by a c }
{
    Interval {
        low: lesser_right(a.low, c),
        high: greater_right(a.high, c),
    }
}

fn lesser_right(z: i128, c: Interval) -> i128
    requires c { AreCounts c }
    ensures value { result ≡ int_min (floor_by z c.low) (floor_by z c.high) }
{
    over_power(z, c.low).min(over_power(z, c.high))
}

fn greater_right(z: i128, c: Interval) -> i128
    requires c { AreCounts c }
    ensures value { result ≡ int_max (floor_by z c.low) (floor_by z c.high) }
{
    over_power(z, c.low).max(over_power(z, c.high))
}
