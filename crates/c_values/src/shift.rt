ghost use Rattle.std.specs.Prelude.{◌≡◌, ◌≤ℤ◌, ◌*ℤ◌, ◌*◌, ◌<◌, ◌≤◌, ◌^◌, false, pos, true, unsigned_abs};
ghost use Rattle.std.specs.Int.{int_div_euclid};
ghost use Rattle.c_values.specs.declared.operator.Op.TheVariants as ops;
ghost use Rattle.c_values.specs.Operators.{applied, is_count, power};
ghost use Rattle.c_values.specs.Types.{IsOf};

use crate::fitting::fit;
use crate::int_type::{IntType, is_signed, width};
use crate::operator::Undefined;

/// Whether a number counts bits by which a value of the type can be shifted.
pub fn is_count(t: IntType, b: i128) -> bool
    ensures value { result ≡ is_count t b }
{
    if b < 0 {
        return false;
    }
    b < width(t) as i128
}

#[tactic(auto, using(crate::proofs::Ranges::of_small, crate::proofs::Ranges::of_unsigned, crate::proofs::Ranges::count_range))]
pub fn shift_left(t: IntType, a: i128, b: i128) -> Result<i128, Undefined>
    requires a { IsOf t a }
    ensures value { result ≡ applied ops.Shl t a b }
{
    if !is_count(t, b) {
        return Err(Undefined::ShiftCount);
    }
    if !is_signed(t) {
        return fit(Undefined::ShiftValue, t, times_power(a, b));
    }
    if a < 0 {
        return Err(Undefined::ShiftValue);
    }
    fit(Undefined::ShiftValue, t, times_power(a, b))
}

#[tactic(auto, using(crate::proofs::Ranges::count_range))]
pub fn shift_right(t: IntType, a: i128, b: i128) -> Result<i128, Undefined>
    ensures value { result ≡ applied ops.Shr t a b }
{
    if !is_count(t, b) {
        return Err(Undefined::ShiftCount);
    }
    Ok(over_power(a, b))
}

/// The floor of `a` divided by `2` to the power `b`.
pub fn over_power(a: i128, b: i128) -> i128
    requires b { (pos 0 ≤ℤ b) × (unsigned_abs b < 64) }
    ensures value { result ≡ int_div_euclid a (pos (power b)) }
{
    int_laws::shifted_right(a, b as u32)
}

/// `a` times `2` to the power `b`.
pub fn times_power(a: i128, b: i128) -> i128
    requires a { (pos 0 ≤ℤ a) × (unsigned_abs a < 2 ^ 64) }
    requires b { (pos 0 ≤ℤ b) × (unsigned_abs b < 64) }
    ensures value { result ≡ a *ℤ pos (power b) }
    ensures range { unsigned_abs result < 2 ^ 127 }
{
    scaled(a as u128, int_laws::power_of_two(b as u32)) as i128
}

fn scaled(a: u128, by: u128) -> u128
    requires a { a < 2 ^ 64 }
    requires by { by ≤ 2 ^ 63 }
    ensures value { result ≡ a * by }
    ensures range { result < 2 ^ 127 }
{
    a * by
}
