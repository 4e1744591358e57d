ghost use Rattle.intervals.specs.Intervals.{IsNear};

use intervals::Interval;

// The farthest number from 0 that a register may hold, 2^80.
const FAR: i128 = 1208925819614629174706176;

/// The numbers from one end to the other, each end moved to the nearest number that a register may hold.
pub(crate) fn near_interval(low: i128, high: i128) -> Interval
    ensures near { IsNear result }
{
    let low = low.clamp(-FAR, FAR);
    let high = high.clamp(low, FAR);
    Interval { low, high }
}
