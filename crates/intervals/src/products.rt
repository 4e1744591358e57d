ghost use Rattle.std.specs.Prelude.{◌≡◌, ◌≤ℤ◌, ◌*ℤ◌, ◌<◌, ◌≤◌, ◌^◌, Some, false, pos, unsigned_abs};
ghost use Rattle.c_values.specs.declared.operator.Op.TheVariants as ops;
ghost use Rattle.c_values.specs.Types.{is_signed};
ghost use Rattle.intervals.specs.Forms.{binary, corners};
ghost use Rattle.intervals.specs.Intervals.{IsIn};

use crate::fitting::{fit_all, fit_unsigned, hull_of_four};
use crate::interval::Interval;
use c_values::{IntType, is_signed};
use int_laws::product;

#[tactic(auto, using(c_values::proofs::Ranges::of_small, c_values::proofs::Ranges::of_unsigned, c_values::proofs::Ranges::of_signed))]
pub fn multiply(t: IntType, a: Interval, b: Interval) -> Option<Interval>
    requires a { IsIn t a }
    requires b { IsIn t b }
    ensures value { result ≡ binary ops.Mul t a b }
{
    if is_signed(t) {
        return multiply_signed(t, a, b);
    }
    Some(multiply_unsigned(t, a, b))
}

fn multiply_signed(t: IntType, a: Interval, b: Interval) -> Option<Interval>
    requires a { (unsigned_abs a.low ≤ 2 ^ 63) × (unsigned_abs a.high ≤ 2 ^ 63) }
    requires b { (unsigned_abs b.low ≤ 2 ^ 63) × (unsigned_abs b.high ≤ 2 ^ 63) }
    ensures value { result ≡ binary ops.Mul t a b }
{
    fit_all(t, product_corners(a, b))
}

fn product_corners(a: Interval, b: Interval) -> Interval
    requires a { (unsigned_abs a.low ≤ 2 ^ 63) × (unsigned_abs a.high ≤ 2 ^ 63) }
    requires b { (unsigned_abs b.low ≤ 2 ^ 63) × (unsigned_abs b.high ≤ 2 ^ 63) }
    ensures value { result ≡ corners (λ x y. x *ℤ y) a b }
{
    hull_of_four(
        product(a.low, b.low),
        product(a.low, b.high),
        product(a.high, b.low),
        product(a.high, b.high),
    )
}

fn multiply_unsigned(t: IntType, a: Interval, b: Interval) -> Interval
    requires type_of { is_signed t ≡ false }
    requires a { (pos 0 ≤ℤ a.low) × (a.low ≤ℤ a.high) × (unsigned_abs a.high < 2 ^ 64) }
    requires b { (pos 0 ≤ℤ b.low) × (b.low ≤ℤ b.high) × (unsigned_abs b.high < 2 ^ 64) }
    ensures value { Some result ≡ binary ops.Mul t a b }
{
    fit_unsigned(
        t,
        natural_product(a.low, b.low),
        natural_product(a.high, b.high),
    )
}

// The product may pass the greatest i128.
fn natural_product(a: i128, b: i128) -> u128
    requires a { (pos 0 ≤ℤ a) × (unsigned_abs a < 2 ^ 64) }
    requires b { (pos 0 ≤ℤ b) × (unsigned_abs b < 2 ^ 64) }
    ensures value { pos result ≡ a *ℤ b }
{
    a as u128 * b as u128
}
