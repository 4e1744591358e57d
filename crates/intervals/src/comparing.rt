ghost use Rattle.std.specs.Prelude.{◌≡◌, ℤ, ◌≤ℤ◌, false, pos, true};
ghost use Rattle.c_values.specs.Comparisons.{compared};
ghost use Rattle.intervals.specs.Comparing.{Always, compared_all, holds_of_all, opposite_of, truth, truth_with};
ghost use Rattle.intervals.specs.Intervals.{Has, from_to};

use crate::interval::Interval;
use c_values::Cmp;
use int_laws::is_same;

/// What a comparison makes of numbers in `a` and `b`: 1 where it holds of each pair, 0 where it holds of none.
pub fn compare(c: Cmp, a: Interval, b: Interval) -> Interval
    requires a { a.low ≤ℤ a.high }
    requires b { b.low ≤ℤ b.high }
    ensures value { result ≡ compared_all c a b }
    ensures contains { (x y : ℤ) → Has a x → Has b y → Has result (truth (compared c x y)) }
    ensures one { Always c a b true → result ≡ from_to (pos 1) (pos 1) }
    ensures zero { Always c a b false → result ≡ from_to (pos 0) (pos 0) }
{
    truth_of(holds_of_all(c, a, b), holds_of_all(opposite_of(c), a, b))
}

fn truth_of(always: bool, never: bool) -> Interval
    ensures value { result ≡ truth_with always never }
{
    if always {
        return Interval { low: 1, high: 1 };
    }
    if never {
        return Interval { low: 0, high: 0 };
    }
    Interval { low: 0, high: 1 }
}

fn opposite_of(c: Cmp) -> Cmp
    ensures value { result ≡ opposite_of c }
{
    match c {
        Cmp::Lt => return Cmp::Ge,
        Cmp::Le => return Cmp::Gt,
        Cmp::Gt => return Cmp::Le,
        Cmp::Ge => return Cmp::Lt,
        Cmp::Eq => return Cmp::Ne,
        Cmp::Ne => return Cmp::Eq,
    }
}

fn holds_of_all(c: Cmp, a: Interval, b: Interval) -> bool
    ensures value { result ≡ holds_of_all c a b }
{
    match c {
        Cmp::Lt => return a.high < b.low,
        Cmp::Le => return a.high <= b.low,
        Cmp::Gt => return b.high < a.low,
        Cmp::Ge => return b.high <= a.low,
        Cmp::Eq => return is_same(a.low, b.high) && is_same(a.high, b.low),
        Cmp::Ne => return a.high < b.low || b.high < a.low,
    }
}
