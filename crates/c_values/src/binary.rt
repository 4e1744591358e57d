ghost use Rattle.std.specs.Prelude.{◌≡◌, ◌≤ℤ◌, ◌*ℤ◌, ◌<◌, ◌≤◌, ◌^◌, ℤ, Ok, false, pos, unsigned_abs};
ghost use Rattle.std.specs.Int.{int_rem_euclid};
ghost use Rattle.c_values.specs.declared.operator.Op.TheVariants as ops;
ghost use Rattle.c_values.specs.declared.operator.Undefined.TheVariants as undefined;
ghost use Rattle.c_values.specs.Operators.{applied, fitted, is_shift};
ghost use Rattle.c_values.specs.Types.{IsOf, modulus};

use crate::fitting::fit;
use crate::int_type::{IntType, is_inside, is_signed, modulus};
use crate::operator::{Op, Undefined};
use crate::shift::{shift_left, shift_right};
use int_laws::{bitwise_and, bitwise_or, bitwise_xor, difference, is_zero, product, quotient, sum};

/// The result of a binary operator in type `t`, or why it has none (ISO/IEC 9899:1999, 6.5.5 to 6.5.7 and 6.5.10 to
/// 6.5.12). A shift count may be any number.
#[tactic(auto, using(crate::proofs::Results::applied_is_of))]
pub fn apply(op: Op, t: IntType, a: i128, b: i128) -> Result<i128, Undefined>
    requires a { IsOf t a }
    requires b { is_shift op ≡ false → IsOf t b }
    ensures value { result ≡ applied op t a b }
    ensures range { (v : ℤ) → result ≡ Ok v → IsOf t v }
{
    compute(op, t, a, b)
}

fn compute(op: Op, t: IntType, a: i128, b: i128) -> Result<i128, Undefined>
    requires a { IsOf t a }
    requires b { is_shift op ≡ false → IsOf t b }
    ensures value { result ≡ applied op t a b }
{
    match op {
        Op::Add => return add(t, a, b),
        Op::Sub => return subtract(t, a, b),
        Op::Mul => return multiply(t, a, b),
        Op::Div => return divide(t, a, b),
        Op::Rem => return remain(t, a, b),
        Op::Shl => return shift_left(t, a, b),
        Op::Shr => return shift_right(t, a, b),
        Op::And => return Ok(bitwise_and(a, b)),
        Op::Or => return Ok(bitwise_or(a, b)),
        Op::Xor => return Ok(bitwise_xor(a, b)),
    }
}

#[tactic(auto, using(crate::proofs::Ranges::of_small))]
fn add(t: IntType, a: i128, b: i128) -> Result<i128, Undefined>
    requires a { IsOf t a }
    requires b { IsOf t b }
    ensures value { result ≡ applied ops.Add t a b }
{
    fit(Undefined::Overflow, t, sum(a, b))
}

#[tactic(auto, using(crate::proofs::Ranges::of_small))]
fn subtract(t: IntType, a: i128, b: i128) -> Result<i128, Undefined>
    requires a { IsOf t a }
    requires b { IsOf t b }
    ensures value { result ≡ applied ops.Sub t a b }
{
    fit(Undefined::Overflow, t, difference(a, b))
}

#[tactic(auto, using(crate::proofs::Ranges::of_small, crate::proofs::Ranges::of_signed, crate::proofs::Ranges::of_unsigned))]
fn multiply(t: IntType, a: i128, b: i128) -> Result<i128, Undefined>
    requires a { IsOf t a }
    requires b { IsOf t b }
    ensures value { result ≡ applied ops.Mul t a b }
{
    if is_signed(t) {
        return multiply_signed(t, a, b);
    }
    Ok(multiply_unsigned(t, a, b))
}

fn multiply_signed(t: IntType, a: i128, b: i128) -> Result<i128, Undefined>
    requires a { unsigned_abs a ≤ 2 ^ 63 }
    requires b { unsigned_abs b ≤ 2 ^ 63 }
    ensures value { result ≡ fitted undefined.Overflow t (a *ℤ b) }
{
    fit(Undefined::Overflow, t, product(a, b))
}

// The product of two 64-bit values may pass the greatest i128, but no u128.
fn multiply_unsigned(t: IntType, a: i128, b: i128) -> i128
    requires a { (pos 0 ≤ℤ a) × (unsigned_abs a < 2 ^ 64) }
    requires b { (pos 0 ≤ℤ b) × (unsigned_abs b < 2 ^ 64) }
    ensures value { result ≡ int_rem_euclid (a *ℤ b) (pos (modulus t)) }
{
    (a as u128 * b as u128 % modulus(t) as u128) as i128
}

#[tactic(auto, using(crate::proofs::Ranges::of_small))]
fn divide(t: IntType, a: i128, b: i128) -> Result<i128, Undefined>
    requires a { IsOf t a }
    ensures value { result ≡ applied ops.Div t a b }
{
    if is_zero(b) {
        return Err(Undefined::DivisionByZero);
    }
    fit(Undefined::Overflow, t, quotient(a, b))
}

#[tactic(auto, using(crate::proofs::Ranges::of_small))]
fn remain(t: IntType, a: i128, b: i128) -> Result<i128, Undefined>
    requires a { IsOf t a }
    ensures value { result ≡ applied ops.Rem t a b }
{
    if is_zero(b) {
        return Err(Undefined::DivisionByZero);
    }
    if is_inside(t, quotient(a, b)) {
        return Ok(int_laws::remainder(a, b));
    }
    Err(Undefined::Overflow)
}
