ghost use Rattle.std.specs.Prelude.{◌≡◌};
ghost use Rattle.c_values.specs.Operators.{fitted};

use crate::int_type::{IntType, is_inside, is_signed, modulus};
use crate::operator::Undefined;

/// An exact result as a result of the type: a signed one has to be a value of it (6.5), an unsigned one is taken modulo
/// one more than the greatest value (6.2.5).
pub fn fit(why: Undefined, t: IntType, z: i128) -> Result<i128, Undefined>
    ensures value { result ≡ fitted why t z }
{
    if is_signed(t) {
        if is_inside(t, z) {
            return Ok(z);
        }
        return Err(why);
    }
    Ok(z.rem_euclid(modulus(t)))
}
