ghost use Rattle.std.specs.Prelude.{◌≡◌, ◌≢◌, ◌⊎◌, ℤ, ◌-ℤ◌, ◌*ℤ◌, ◌≤◌, ◌^◌, pos, unsigned_abs};
ghost use Rattle.std.specs.Int.RustNames.{int_div};
ghost use Rattle.c_values.specs.declared.int_type.IntType.TheVariants as types;
ghost use Rattle.c_values.specs.Types.{IsOf};
ghost use Rattle.intervals.specs.Forms.{fit, pointer_difference};
ghost use Rattle.intervals.specs.Intervals.{Fits, Has, Holds, IsIn, IsNear, from_to, range_of};

use crate::fitting::fit;
use crate::interval::{Interval, range_of};
use c_values::IntType;
use int_laws::{difference, quotient};

/// The difference of two pointers into one region, in elements of `size` bytes, from the bounds of their offsets in
/// bytes (ISO/IEC 9899:1999, 6.5.6). It is an `int`, and defined where `size` divides the difference of the offsets.
pub fn pointer_difference(a: Interval, b: Interval, size: u64) -> Option<Interval>
    requires a { IsNear a }
    requires b { IsNear b }
    requires size { size ≢ 0 }
    ensures value { result ≡ pointer_difference a b size }
    ensures contains { (x y r : ℤ) → Has a x → Has b y → x -ℤ y ≡ r *ℤ pos size → IsOf types.Int r → Holds result r }
    ensures inside { Fits types.Int result }
{
    compute(a, b, size)
}

fn compute(a: Interval, b: Interval, size: u64) -> Option<Interval>
    requires a { IsNear a }
    requires b { IsNear b }
    requires size { size ≢ 0 }
    ensures value { result ≡ pointer_difference a b size }
{
    fit_quotients(
        IntType::Int,
        difference(a.low, b.high),
        difference(a.high, b.low),
        size,
    )
}

fn fit_quotients(t: IntType, low: i128, high: i128, size: u64) -> Option<Interval>
    requires low { unsigned_abs low ≤ 2 ^ 81 }
    requires high { unsigned_abs high ≤ 2 ^ 81 }
    requires size { size ≢ 0 }
    ensures value { result ≡ fit t (int_div low (pos size)) (int_div high (pos size)) }
{
    fit(t, quotient_by(low, size), quotient_by(high, size))
}

fn quotient_by(z: i128, size: u64) -> i128
    requires z { unsigned_abs z ≤ 2 ^ 81 }
    requires size { size ≢ 0 }
    ensures value { result ≡ int_div z (pos size) }
{
    quotient(z, size as i128)
}

/// The comparison of two pointers, of which nothing is known.
pub fn pointer_comparison() -> Interval
    ensures value { result ≡ from_to (pos 0) (pos 1) }
    ensures contains { (z : ℤ) → (z ≡ pos 0) ⊎ (z ≡ pos 1) → Has result z }
{
    Interval { low: 0, high: 1 }
}

/// A pointer that is converted to an integer, which may be any value of the type (6.3.2.3).
pub fn pointer_to_int(t: IntType) -> Interval
    ensures value { result ≡ range_of t }
    ensures contains { (z : ℤ) → IsOf t z → Has result z }
    ensures inside { IsIn t result }
{
    range_of(t)
}
