ghost use Rattle.std.specs.Prelude.{◌≡◌, ◌≤◌, ◌^◌, pos, unsigned_abs};
ghost use Rattle.intervals.specs.Forms.{farthest, is_only_zero, kept_or_wide, lower_end, nearest, remainders, upper_end, wide};

use crate::interval::Interval;
use int_laws::{is_zero, negation};

pub fn remain(a: Interval, b: Interval) -> Option<Interval>
    requires b { (unsigned_abs b.low ≤ 2 ^ 64) × (unsigned_abs b.high ≤ 2 ^ 64) }
    ensures value { result ≡ remainders a b }
{
    if is_only_zero(b) {
        return None;
    }
    Some(keep_or_widen(a, b))
}

pub fn is_only_zero(b: Interval) -> bool
    ensures value { result ≡ is_only_zero b }
{
    is_zero(b.low) && is_zero(b.high)
}

fn keep_or_widen(a: Interval, b: Interval) -> Interval
    requires b { (unsigned_abs b.low ≤ 2 ^ 64) × (unsigned_abs b.high ≤ 2 ^ 64) }
    ensures value { result ≡ kept_or_wide a b }
{
    if a.low < 0 {
        return wide(a, b);
    }
    if a.high < nearest(b) {
        return a;
    }
    wide(a, b)
}

fn nearest(b: Interval) -> i128
    requires b { (unsigned_abs b.low ≤ 2 ^ 64) × (unsigned_abs b.high ≤ 2 ^ 64) }
    ensures value { result ≡ pos (nearest b) }
{
    if 0 < b.low {
        return b.low;
    }
    if b.high < 0 {
        return negation(b.high);
    }
    1
}

fn wide(a: Interval, b: Interval) -> Interval
    requires b { (unsigned_abs b.low ≤ 2 ^ 64) × (unsigned_abs b.high ≤ 2 ^ 64) }
    ensures value { result ≡ wide a b }
{
    let m = farthest(b);
    Interval {
        low: lower_end(a.low, m),
        high: upper_end(a.high, m),
    }
}

fn farthest(b: Interval) -> i128
    requires b { (unsigned_abs b.low ≤ 2 ^ 64) × (unsigned_abs b.high ≤ 2 ^ 64) }
    ensures value { result ≡ farthest b }
    ensures range { unsigned_abs result ≤ 2 ^ 64 }
{
    (-b.low).max(b.high)
}

fn lower_end(low: i128, m: i128) -> i128
    requires m { unsigned_abs m ≤ 2 ^ 64 }
    ensures value { result ≡ lower_end low m }
{
    if low < 0 {
        return low.max(1 - m);
    }
    0
}

fn upper_end(high: i128, m: i128) -> i128
    requires m { unsigned_abs m ≤ 2 ^ 64 }
    ensures value { result ≡ upper_end high m }
{
    if 0 < high {
        return high.min(m - 1);
    }
    0
}
