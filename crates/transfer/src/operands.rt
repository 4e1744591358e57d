ghost use Rattle.std.specs.Prelude.{IfSome};
ghost use Rattle.intervals.specs.Intervals.{IsNear};

use crate::near::near_interval;
use core_ir::Operand;
use intervals::Interval;
use var_state::State;

/// The least and the greatest number of an operand; none where the state is bottom.
pub(crate) fn numbers(state: &State, o: Operand) -> Option<Interval>
    ensures near { IfSome result IsNear }
{
    match o {
        Operand::Reg(r) => return state.bounds(r),
        Operand::Const(c) => return constant(state, c),
    }
}

fn constant(state: &State, c: i128) -> Option<Interval>
    ensures near { IfSome result IsNear }
{
    if state.is_bottom() {
        return None;
    }
    Some(near_interval(c, c))
}

/// The only number of an interval.
pub(crate) fn only(i: Interval) -> Option<i128> {
    if i.low == i.high {
        return Some(i.low);
    }
    None
}
