ghost use Rattle.std.specs.Prelude.{◌≡◌, ◌⊎◌, ℤ};
ghost use Rattle.c_values.specs.Types.{IsOf};
ghost use Rattle.intervals.specs.Intervals.{Has, IsIn, hull, join_options, range_of, span, widened};

use c_values::{IntType, greatest, least};

/// The integers from `low` to `high`.
#[derive(Clone, Copy, Debug, PartialEq, Eq)]
pub struct Interval {
    pub low: i128,
    pub high: i128,
}

/// All values of the type.
#[tactic(auto, using(crate::proofs::Fits::range_in, crate::proofs::Fits::range_has))]
pub fn range_of(t: IntType) -> Interval
    ensures value { result ≡ range_of t }
    ensures contains { (z : ℤ) → IsOf t z → Has result z }
    ensures inside { IsIn t result }
{
    Interval {
        low: least(t),
        high: greatest(t),
    }
}

/// The least interval that has both.
#[tactic(auto, using(crate::proofs::Joins::hull_has))]
pub fn join(a: Interval, b: Interval) -> Interval
    ensures value { result ≡ hull a b }
    ensures contains { (z : ℤ) → Has a z ⊎ Has b z → Has result z }
{
    Interval {
        low: a.low.min(b.low),
        high: a.high.max(b.high),
    }
}

/// An interval that has both and grows but once at each end: an end of `old` is kept where that of `new` is not beyond
/// it, and is the end of `range` otherwise.
#[tactic(auto, using(crate::proofs::Joins::widened_has))]
pub fn widen(old: Interval, new: Interval, range: Interval) -> Interval
    ensures value { result ≡ widened old new range }
    ensures contains { (z : ℤ) → Has range z → Has old z ⊎ Has new z → Has result z }
{
    widen_ends(old, new, range)
}

fn widen_ends(old: Interval, new: Interval, range: Interval) -> Interval
    ensures value { result ≡ widened old new range }
{
    Interval {
        low: widen_low(old, new, range),
        high: widen_high(old, new, range),
    }
}

fn widen_low(old: Interval, new: Interval, range: Interval) -> i128
    ensures value { result ≡ (widened old new range).low }
{
    if new.low < old.low {
        return range.low;
    }
    old.low
}

fn widen_high(old: Interval, new: Interval, range: Interval) -> i128
    ensures value { result ≡ (widened old new range).high }
{
    if old.high < new.high {
        return range.high;
    }
    old.high
}

/// The integers from `low` to `high`, if there are any.
pub fn span(low: i128, high: i128) -> Option<Interval>
    ensures value { result ≡ span low high }
{
    if high < low {
        return None;
    }
    Some(Interval { low, high })
}

pub fn join_options(a: Option<Interval>, b: Option<Interval>) -> Option<Interval>
    ensures value { result ≡ join_options a b }
{
    match (a, b) {
        (Some(a), Some(b)) => return Some(join(a, b)),
        (Some(a), None) => return Some(a),
        (None, _) => return b,
    }
}
