ghost use Rattle.std.specs.Prelude.{◌≡◌, ℤ, Ok, false};
ghost use Rattle.c_values.specs.declared.operator.Op.TheVariants as ops;
ghost use Rattle.c_values.specs.Operators.{applied, is_shift};
ghost use Rattle.intervals.specs.Forms.{binary};
ghost use Rattle.intervals.specs.Intervals.{Fits, Has, Holds, IsIn};

use crate::bitwise::{and, or, xor};
use crate::fitting::fit;
use crate::interval::Interval;
use crate::products::multiply;
use crate::quotients::divide;
use crate::remainders::remain;
use crate::shifts::{shift_left, shift_right};
use c_values::{IntType, Op};
use int_laws::{difference, sum};

/// What a binary operator in type `t` makes of operands in `a` and `b`; None where it is undefined at all of them. The
/// bounds of a shift count may be any numbers.
pub fn binary(op: Op, t: IntType, a: Interval, b: Interval) -> Option<Interval>
    requires a { IsIn t a }
    requires b { is_shift op ≡ false → IsIn t b }
    ensures value { result ≡ binary op t a b }
    ensures contains { (x y r : ℤ) → Has a x → Has b y → applied op t x y ≡ Ok r → Holds result r }
    ensures inside { Fits t result }
{
    compute(op, t, a, b)
}

#[tactic(auto, using(c_values::proofs::Ranges::of_small))]
fn compute(op: Op, t: IntType, a: Interval, b: Interval) -> Option<Interval>
    requires a { IsIn t a }
    requires b { is_shift op ≡ false → IsIn t b }
    ensures value { result ≡ binary op t a b }
{
    match op {
        Op::Add => return add(t, a, b),
        Op::Sub => return subtract(t, a, b),
        Op::Mul => return multiply(t, a, b),
        Op::Div => return divide(t, a, b),
        Op::Rem => return remain(a, b),
        Op::Shl => return shift_left(t, a, b),
        Op::Shr => return shift_right(t, a, b),
        Op::And => return Some(and(t, a, b)),
        Op::Or => return Some(or(t, a, b)),
        Op::Xor => return Some(xor(t, a, b)),
    }
}

#[tactic(auto, using(c_values::proofs::Ranges::of_small))]
fn add(t: IntType, a: Interval, b: Interval) -> Option<Interval>
    requires a { IsIn t a }
    requires b { IsIn t b }
    ensures value { result ≡ binary ops.Add t a b }
{
    fit(t, sum(a.low, b.low), sum(a.high, b.high))
}

#[tactic(auto, using(c_values::proofs::Ranges::of_small))]
fn subtract(t: IntType, a: Interval, b: Interval) -> Option<Interval>
    requires a { IsIn t a }
    requires b { IsIn t b }
    ensures value { result ≡ binary ops.Sub t a b }
{
    fit(t, difference(a.low, b.high), difference(a.high, b.low))
}
