ghost use Rattle.std.specs.Prelude.{IsTrue};
ghost use Rattle.core_ir.specs.Programs.{function_of};
ghost use Rattle.core_ir.specs.StepsFit.{ConditionFits};

use crate::operands::{
    integer_in, is_integer, is_pointer, is_size, puts_integers, puts_operand, puts_pointer,
    right_operand,
};
use crate::ranges::{Range, type_range};
use crate::setting::Setting;
use c_values::IntType;
use core_ir::{Cond, Function, Value};

const TRUTHS: Range = (0, 1);

/// Whether a value may be put into a register.
pub(crate) fn set_fits(x: &Setting<'_>, f: &Function, to: u32, value: Value) -> bool {
    match value {
        Value::Copy(a) => puts_operand(f, to, a),
        Value::Convert(t, a) => is_integer(f, a) && puts_integers(f, type_range(t), to),
        Value::Unary(_, t, a) => {
            integer_in(f, type_range(t), a) && puts_integers(f, type_range(t), to)
        }
        Value::Binary(op, t, a, b) => {
            integer_in(f, type_range(t), a)
                && right_operand(f, op, t, b)
                && puts_integers(f, type_range(t), to)
        }
        Value::Compare(_, a, b) => {
            is_integer(f, a) && is_integer(f, b) && puts_integers(f, TRUTHS, to)
        }
        Value::Address(object) => x.is_object(object) && puts_pointer(f, to),
        Value::Function(g) => x.is_function(g) && puts_pointer(f, to),
        Value::Null => puts_pointer(f, to),
        Value::FromInt(a) => is_integer(f, a) && puts_pointer(f, to),
        Value::ToInt(t, r) => is_pointer(f, r) && puts_integers(f, type_range(t), to),
        Value::Minus { a, b, size } => {
            is_pointer(f, a)
                && is_pointer(f, b)
                && is_size(i128::from(size))
                && puts_integers(f, type_range(IntType::Int), to)
        }
        Value::PointerCompare(_, a, b) => {
            is_pointer(f, a) && is_pointer(f, b) && puts_integers(f, TRUTHS, to)
        }
    }
}

pub(crate) fn condition_fits(f: &Function, cond: Cond) -> bool
    ensures { IsTrue result → ConditionFits (function_of f.now) cond }
{
    match cond {
        Cond::Ints(_, a, b) => is_integer(f, a) && is_integer(f, b),
        Cond::Pointers(_, a, b) => is_pointer(f, a) && is_pointer(f, b),
        Cond::NotNull(r) => is_pointer(f, r),
    }
}
