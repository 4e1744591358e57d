ghost use Rattle.std.specs.Prelude.{◌≡◌, ◌^◌, ◌≤◌, ◌≤ℤ◌, neg_ℤ, pos, true, unsigned_abs, ◌↔◌, ◌<ℤ◌, IsTrue, IfSome, IsNone};
ghost use Rattle.std.specs.Int.{int_max, int_min};
ghost use Rattle.intervals.specs.Intervals.{IsNear};

use int_laws::difference;
use intervals::Interval;

/// The farthest number from 0 that a register may hold, 2^80.
pub(crate) const FAR: i128 = 1208925819614629174706176;

/// The numbers from `low` to `high`: at least one, and none beyond 2^80 either way.
#[derive(Clone, Copy)]
pub(crate) struct Range {
    pub(crate) low: i128,
    pub(crate) high: i128,
    ghost low_end: { neg_ℤ (pos (2 ^ 80)) ≤ℤ low },
    ghost order: { low ≤ℤ high },
    ghost high_end: { high ≤ℤ pos (2 ^ 80) },
}

impl Range {
    /// The only number of the constant zero.
    pub(crate) fn zero() -> Range {
        Range { low: 0, high: 0 }
    }

    /// All numbers that a register may hold.
    pub(crate) fn all() -> Range {
        Range {
            low: -FAR,
            high: FAR,
        }
    }

    /// The numbers from one end to the other, each moved to the nearest number that may stand there.
    pub(crate) fn from_ends(low: i128, high: i128) -> Range
        ensures low { neg_ℤ (pos (2 ^ 80)) ≤ℤ low → low ≤ℤ pos (2 ^ 80) → result.low ≡ low }
        ensures high { neg_ℤ (pos (2 ^ 80)) ≤ℤ low → low ≤ℤ high → high ≤ℤ pos (2 ^ 80) → result.high ≡ high }
    {
        let low = low.clamp(-FAR, FAR);
        let high = high.clamp(low, FAR);
        Range { low, high }
    }

    pub(crate) fn interval(self) -> Interval
        ensures near { IsNear result }
    {
        Interval {
            low: self.low,
            high: self.high,
        }
    }

    /// What lies between the ends too, if anything does.
    pub(crate) fn part(self, low: i128, high: i128) -> Option<Range>
        ensures ends { IfSome result (λ r. (r.low ≡ int_max self.low low) × (r.high ≡ int_min self.high high)) }
        ensures none { IsNone result ↔ (int_min self.high high <ℤ int_max self.low low) }
    {
        let low = self.low.max(low);
        let high = self.high.min(high);
        if high < low {
            return None;
        }
        Some(Range { low, high })
    }

    /// The least range that has both.
    pub(crate) fn hull(self, other: Range) -> Range
        ensures low { result.low ≡ int_min self.low other.low }
        ensures high { result.high ≡ int_max self.high other.high }
    {
        Range::from_ends(self.low.min(other.low), self.high.max(other.high))
    }

    pub(crate) fn lies_in(self, other: Range) -> bool
        ensures within { IsTrue result ↔ ((other.low ≤ℤ self.low) × (self.high ≤ℤ other.high)) }
    {
        other.low <= self.low && self.high <= other.high
    }

    pub(crate) fn is_same(self, other: Range) -> bool {
        self.low == other.low && self.high == other.high
    }

    pub(crate) fn is_one(self) -> bool {
        self.low == self.high
    }

    /// Whether a number of the range and c give a number of the other range.
    pub(crate) fn can_reach(self, c: i128, other: Range) -> bool
        ensures small { result ≡ true → unsigned_abs c ≤ 2 ^ 81 }
    {
        let least = difference(other.low, self.high);
        let most = difference(other.high, self.low);
        if c < least {
            return false;
        }
        if most < c {
            return false;
        }
        true
    }

    /// The range with c added, as far as it lies in the other range.
    pub(crate) fn moved(self, c: i128, other: Range) -> Option<Range> {
        other.part(self.low.saturating_add(c), self.high.saturating_add(c))
    }

    /// An end is kept where that of `next` is not beyond it, and is that of `top` otherwise.
    pub(crate) fn widened(self, next: Range, top: Range) -> Range {
        Range::from_ends(
            if next.low < self.low {
                top.low
            } else {
                self.low
            },
            if self.high < next.high {
                top.high
            } else {
                self.high
            },
        )
    }
}
