// The rows are printed by tools/c_values_table, which has a C compiler compute them.
ghost use Rattle.std.specs.Prelude.{◌≡◌};
ghost use Rattle.c_values.specs.Operators.{is_shift};

use crate::words;
use c_values::{
    Cmp, IntType, Op, UnOp, Undefined, apply, apply_unary, compare, convert, greatest, is_inside,
    least,
};

/// A type, its least value and its greatest.
const RANGES: &str = "\
Bool 0 1
Char -128 127
SChar -128 127
UChar 0 255
Short -32768 32767
UShort 0 65535
Int -2147483648 2147483647
UInt 0 4294967295
Long -2147483648 2147483647
ULong 0 4294967295
LongLong -9223372036854775808 9223372036854775807
ULongLong 0 18446744073709551615";

/// A type, a number, and what it becomes in the type.
const CONVERSIONS: &str = "\
Bool 0 0
Bool 256 1
Bool -1 1
Char 128 -128
SChar 200 -56
SChar -129 127
UChar -1 255
UChar 256 0
Short 32768 -32768
Short -98305 32767
UShort -32768 32768
Int 2147483648 -2147483648
Int -2147483649 2147483647
UInt -1 4294967295
UInt 4294967296 0
Long 4294967295 -1
ULong -2147483648 2147483648
LongLong -9223372036854775808 -9223372036854775808
ULongLong -9223372036854775808 9223372036854775808
ULongLong -1 18446744073709551615";

/// An operator, a type, two operands and the answer.
const OPERATORS: &str = "\
Add Int 2147483647 1 overflow
Add Int -2147483648 -1 overflow
Add Int 2147483647 -2147483648 -1
Add UInt 4294967295 1 0
Add LongLong 9223372036854775807 1 overflow
Add ULongLong 18446744073709551615 2 1
Sub Int 0 -2147483648 overflow
Sub Int -1 2147483647 -2147483648
Sub UInt 0 1 4294967295
Sub LongLong -9223372036854775808 1 overflow
Sub ULongLong 0 18446744073709551615 1
Mul Int 46341 46341 overflow
Mul Int -46341 46340 -2147441940
Mul Int -2147483648 -1 overflow
Mul UInt 4294967295 4294967295 1
Mul LongLong 3037000500 3037000500 overflow
Mul LongLong 3037000499 -3037000499 -9223372030926249001
Mul ULongLong 18446744073709551615 18446744073709551614 2
Div Int -7 2 -3
Div Int 7 -2 -3
Div Int -2147483648 -1 overflow
Div Int 1 0 zero
Div UInt 4294967295 2 2147483647
Div LongLong -9223372036854775808 -1 overflow
Div ULongLong 18446744073709551615 3 6148914691236517205
Rem Int -7 2 -1
Rem Int 7 -2 1
Rem Int -2147483648 -1 overflow
Rem Int 1 0 zero
Rem UInt 4294967295 16 15
Shl Int 1 30 1073741824
Shl Int 1 31 value
Shl Int -1 0 value
Shl Int -1 32 count
Shl Int 1 -1 count
Shl UInt 4294967295 31 2147483648
Shl UInt 1 32 count
Shl LongLong 1 62 4611686018427387904
Shl LongLong 1 63 value
Shl ULongLong 18446744073709551615 63 9223372036854775808
Shr Int -2147483648 31 -1
Shr Int -3 1 -2
Shr Int 1 32 count
Shr UInt 4294967295 31 1
Shr LongLong -9223372036854775808 62 -2
Shr ULongLong 18446744073709551615 63 1
And Int -2147483648 -1 -2147483648
And Int -6 13 8
And ULongLong 18446744073709551615 12 12
Or Int -2147483648 13 -2147483635
Or UInt 12 10 14
Xor Int -6 13 -9
Xor UInt 4294967295 10 4294967285
Xor LongLong -9223372036854775808 9223372036854775807 -1";

/// An operator, a type, an operand and the answer.
const UNARY_OPERATORS: &str = "\
Neg Int -2147483648 overflow
Neg Int 2147483647 -2147483647
Neg UInt 1 4294967295
Neg UInt 0 0
Neg LongLong -9223372036854775808 overflow
Not Int 0 -1
Not Int -2147483648 2147483647
Not UInt 1 4294967294
Not ULongLong 0 18446744073709551615";

/// A comparison, and whether it holds of -1 and 0, of 7 and 7, and of 0 and -1.
const COMPARISONS: &str = "\
Lt 1 0 0
Le 1 1 0
Gt 0 0 1
Ge 0 1 1
Eq 0 1 0
Ne 1 0 1";

fn takes_any_count(op: Op) -> bool
    ensures value { result ≡ is_shift op }
{
    matches!(op, Op::Shl | Op::Shr)
}

/// What an operator gives of two operands, or nothing where they are none of its own.
pub fn answer_to(op: Op, t: IntType, a: i128, b: i128) -> Option<Result<i128, Undefined>> {
    if is_inside(t, a) && (takes_any_count(op) || is_inside(t, b)) {
        Some(apply(op, t, a, b))
    } else {
        None
    }
}

pub fn unary_answer_to(op: UnOp, t: IntType, a: i128) -> Option<Result<i128, Undefined>> {
    if is_inside(t, a) {
        Some(apply_unary(op, t, a))
    } else {
        None
    }
}

/// What a word of a row says: a value, or why there is none.
pub fn answer_of(word: &str) -> Option<Result<i128, Undefined>> {
    match word {
        "zero" => Some(Err(Undefined::DivisionByZero)),
        "overflow" => Some(Err(Undefined::Overflow)),
        "count" => Some(Err(Undefined::ShiftCount)),
        "value" => Some(Err(Undefined::ShiftValue)),
        _ => match word.parse::<i128>() {
            Ok(value) => Some(Ok(value)),
            Err(_) => None,
        },
    }
}

fn is_range(row: &str) -> bool {
    let mut words = row.split(' ');
    let Some(t) = words::int_type(words.next()) else {
        return false;
    };
    words::is_number(words.next(), least(t)) && words::is_number(words.next(), greatest(t))
}

fn is_conversion(row: &str) -> bool {
    let mut words = row.split(' ');
    let t = words::int_type(words.next());
    let (Some(t), Some(from)) = (t, words::number(words.next())) else {
        return false;
    };
    words::is_number(words.next(), convert(t, from))
}

fn is_answer(row: &str) -> bool {
    let mut words = row.split(' ');
    let op = words::op(words.next());
    let t = words::int_type(words.next());
    let a = words::number(words.next());
    let (Some(op), Some(t), Some(a), Some(b)) = (op, t, a, words::number(words.next())) else {
        return false;
    };
    is_told(answer_to(op, t, a, b), words.next())
}

fn is_unary_answer(row: &str) -> bool {
    let mut words = row.split(' ');
    let op = words::unary_op(words.next());
    let t = words::int_type(words.next());
    let (Some(op), Some(t), Some(a)) = (op, t, words::number(words.next())) else {
        return false;
    };
    is_told(unary_answer_to(op, t, a), words.next())
}

fn is_told(found: Option<Result<i128, Undefined>>, word: Option<&str>) -> bool {
    match word {
        Some(word) => found.is_some() && found == answer_of(word),
        None => false,
    }
}

fn is_comparison(row: &str) -> bool {
    let mut words = row.split(' ');
    let Some(c) = words::comparison(words.next()) else {
        return false;
    };
    words::is_number(words.next(), i128::from(compare(c, -1, 0)))
        && words::is_number(words.next(), i128::from(compare(c, 7, 7)))
        && words::is_number(words.next(), i128::from(compare(c, 0, -1)))
}

#[test]
fn ranges_are_those_of_c(rt: HostRuntime) {
    for row in RANGES.split('\n') {
        assert!(rt; is_range(row), "{row}");
    }
}

#[test]
fn conversions_are_those_of_c(rt: HostRuntime) {
    for row in CONVERSIONS.split('\n') {
        assert!(rt; is_conversion(row), "{row}");
    }
}

#[test]
fn operators_are_those_of_c(rt: HostRuntime) {
    for row in OPERATORS.split('\n') {
        assert!(rt; is_answer(row), "{row}");
    }
    for row in UNARY_OPERATORS.split('\n') {
        assert!(rt; is_unary_answer(row), "{row}");
    }
}

#[test]
fn comparisons_are_those_of_c(rt: HostRuntime) {
    for row in COMPARISONS.split('\n') {
        assert!(rt; is_comparison(row), "{row}");
    }
}
