ghost use Rattle.std.specs.Prelude.{◌≡◌, ℤ, ◌-ℤ◌, Ok};
ghost use Rattle.c_values.specs.Operators.{applied_unary, complement};
ghost use Rattle.c_values.specs.Types.{IsOf};
ghost use Rattle.c_values.specs.declared.operator.UnOp.TheVariants as unary_ops;

use crate::fitting::fit;
use crate::int_type::{IntType, greatest, is_signed};
use crate::operator::{UnOp, Undefined};
use int_laws::{difference, negation};

/// The result of a unary operator in type `t`, or why it has none (ISO/IEC 9899:1999, 6.5.3.3).
#[tactic(auto, using(crate::proofs::Results::unary_is_of))]
pub fn apply_unary(op: UnOp, t: IntType, a: i128) -> Result<i128, Undefined>
    requires a { IsOf t a }
    ensures value { result ≡ applied_unary op t a }
    ensures range { (v : ℤ) → result ≡ Ok v → IsOf t v }
{
    match op {
        UnOp::Neg => return negate(t, a),
        UnOp::Not => return Ok(complement(t, a)),
    }
}

#[tactic(auto, using(crate::proofs::Ranges::of_small))]
fn negate(t: IntType, a: i128) -> Result<i128, Undefined>
    requires a { IsOf t a }
    ensures value { result ≡ applied_unary unary_ops.Neg t a }
{
    fit(Undefined::Overflow, t, negation(a))
}

#[tactic(auto, using(crate::proofs::Ranges::of_small))]
fn complement(t: IntType, a: i128) -> i128
    requires a { IsOf t a }
    ensures value { result ≡ complement t a }
{
    if is_signed(t) {
        return difference(negation(a), 1);
    }
    difference(greatest(t), a)
}
