ghost use Rattle.std.specs.Prelude.{◌≡◌, ◌≢◌, ◌-ℤ◌, pos, true, false, if◌then◌else◌, int_lt};
ghost use Rattle.std.specs.Int.{int_rem_euclid};
ghost use Rattle.c_values.specs.declared.int_type.IntType.TheVariants as types;
ghost use Rattle.c_values.specs.Conversions.{IsCongruent, converted, wrapped};
ghost use Rattle.c_values.specs.Types.{IsOf, greatest, modulus};

use crate::int_type::{IntType, greatest, modulus};
use int_laws::{difference, is_zero};

/// The value of type `t` to which `v` converts (ISO/IEC 9899:1999, 6.3.1.2 and 6.3.1.3). A number that a signed type
/// cannot hold wraps in two's complement.
#[tactic(auto, using(crate::proofs::Conversions::converted_is_of, crate::proofs::Conversions::converted_same))]
pub fn convert(t: IntType, v: i128) -> i128
    ensures value { result ≡ converted t v }
    ensures range { IsOf t result }
    ensures same { IsOf t v → result ≡ v }
    ensures congruent { t ≢ types.Bool → IsCongruent t v result }
{
    if t == IntType::Bool {
        if is_zero(v) {
            return 0;
        }
        return 1;
    }
    wrap(t, v)
}

/// The value of type `t` that differs from `v` by a multiple of the number of values of `t`.
#[tactic(auto, using(crate::proofs::Conversions::wrapped_is))]
pub fn wrap(t: IntType, v: i128) -> i128
    ensures value { result ≡ wrapped t v }
{
    lower(t, v.rem_euclid(modulus(t)))
}

// The value of the type that has the rest, which may be above it.
#[tactic(auto, using(crate::proofs::Ranges::modulus_small))]
fn lower(t: IntType, rest: i128) -> i128
    requires rest { int_lt rest (pos (modulus t)) ≡ true }
    requires natural { int_lt rest (pos 0) ≡ false }
    ensures value { result ≡ if int_lt (greatest t) rest then rest -ℤ pos (modulus t) else rest }
{
    if greatest(t) < rest {
        return difference(rest, modulus(t));
    }
    rest
}
