ghost use Rattle.std.specs.Prelude.{◌≡◌, ℤ, ◌≤◌, ◌^◌, ◌-ℤ◌, Ok, Some, neg_ℤ, pos, unsigned_abs};
ghost use Rattle.c_values.specs.declared.operator.UnOp.TheVariants as unary_ops;
ghost use Rattle.c_values.specs.Operators.{applied_unary};
ghost use Rattle.intervals.specs.Forms.{unary};
ghost use Rattle.intervals.specs.Intervals.{Fits, Has, Holds, IsIn};

use crate::fitting::fit;
use crate::interval::Interval;
use c_values::{IntType, UnOp, greatest, is_signed};
use int_laws::{difference, negation};

/// What a unary operator in type `t` makes of operands in `a`; None where it is undefined at all of them.
pub fn unary(op: UnOp, t: IntType, a: Interval) -> Option<Interval>
    requires a { IsIn t a }
    ensures value { result ≡ unary op t a }
    ensures contains { (x r : ℤ) → Has a x → applied_unary op t x ≡ Ok r → Holds result r }
    ensures inside { Fits t result }
{
    compute(op, t, a)
}

fn compute(op: UnOp, t: IntType, a: Interval) -> Option<Interval>
    requires a { IsIn t a }
    ensures value { result ≡ unary op t a }
{
    match op {
        UnOp::Neg => return negate(t, a),
        UnOp::Not => return Some(complement(t, a)),
    }
}

#[tactic(auto, using(c_values::proofs::Ranges::of_small))]
fn negate(t: IntType, a: Interval) -> Option<Interval>
    requires a { IsIn t a }
    ensures value { result ≡ unary unary_ops.Neg t a }
{
    fit(t, negation(a.high), negation(a.low))
}

#[tactic(auto, using(c_values::proofs::Ranges::of_small))]
fn complement(t: IntType, a: Interval) -> Interval
    requires a { IsIn t a }
    ensures value { Some result ≡ unary unary_ops.Not t a }
{
    if is_signed(t) {
        return Interval {
            low: opposite(a.high),
            high: opposite(a.low),
        };
    }
    Interval {
        low: difference(greatest(t), a.high),
        high: difference(greatest(t), a.low),
    }
}

// Each bit the other way round.
fn opposite(z: i128) -> i128
    requires z { unsigned_abs z ≤ 2 ^ 64 }
    ensures value { result ≡ neg_ℤ z -ℤ pos 1 }
{
    difference(negation(z), 1)
}
