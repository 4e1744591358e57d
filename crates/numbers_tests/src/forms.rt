// The rows are printed by tools/intervals_table, which has a C program try all operands; the rows of wider types are
// worked by hand.
ghost use Rattle.std.specs.Prelude.{◌≡◌, true};
ghost use Rattle.intervals.specs.Intervals.{IsIn};

use crate::words;
use c_values::{IntType, is_inside};
use intervals::{
    Interval, binary, cast, compare, join, pointer_comparison, pointer_difference, pointer_to_int,
    range_of, unary, widen,
};

/// An operator, a type, the ends of two intervals, and the ends of all results.
const BINARY: &str = "\
Add SChar -128 5 -3 100 -128 105
Add SChar 100 127 1 50 101 127
Add SChar 127 127 1 1 none
Add UChar 250 255 6 10 0 9
Add UChar 250 255 0 10 0 255
Sub SChar -100 3 -5 60 -128 8
Sub UChar 0 3 4 5 251 255
Mul SChar -3 4 -5 6 -20 24
Mul UChar 16 17 16 16 0 16
Div SChar -7 9 -2 3 -9 9
Div SChar -128 -128 -1 -1 none
Div SChar 5 9 0 0 none
Div UChar 10 20 0 3 3 20
Rem SChar -7 9 -4 3 -3 3
Rem UChar 0 255 16 16 0 15
Rem UChar 3 7 8 20 3 7
Rem SChar -7 9 0 0 none
Shl SChar -5 3 -1 2 0 12
Shl SChar -5 -1 0 1 none
Shl UChar 1 1 0 9 1 128
Shl UChar 1 1 8 9 none
Shr SChar -128 100 1 3 -64 50
Shr UChar 0 255 4 9 0 15
Shr UChar 0 255 8 9 none
And UChar 0 12 0 10 0 10
And SChar -128 -1 0 10 0 10
And SChar -6 -6 13 13 8 8
Or UChar 0 7 0 8 0 15
Or SChar -6 -6 13 13 -1 -1
Xor UChar 0 7 0 8 0 15
Xor SChar -6 -6 13 13 -9 -9
Rem UInt 0 4294967295 16 16 0 15
Sub UInt 0 0 1 1 4294967295 4294967295
Mul ULongLong 18446744073709551615 18446744073709551615 18446744073709551615 18446744073709551615 1 1
And Int -8 -1 -4 -2 -2147483648 2147483647";

/// An operator, a type, the ends of an interval, and the ends of all results.
const UNARY: &str = "\
Neg SChar -128 5 -5 127
Neg SChar -128 -128 none
Neg UChar 1 3 253 255
Neg UChar 0 3 0 255
Not SChar -5 3 -4 4
Not UChar 1 3 252 254";

/// A type, the ends of an interval, and those of what its numbers become in the type.
const CONVERSIONS: &str = "\
Bool 0 0 0 0
Bool -7 -2 1 1
Bool -7 2 0 1
SChar 100 150 -128 127
SChar 200 210 -56 -46
UChar -3 -1 253 255
UChar -3 0 0 255";

/// A comparison, the ends of two intervals, and the least and the greatest truth of it.
const COMPARISONS: &str = "\
Lt 1 3 4 5 1 1
Lt 1 3 3 5 0 1
Le 1 3 3 5 1 1
Le 4 5 1 3 0 0
Gt 4 5 1 3 1 1
Gt 3 5 1 3 0 1
Ge 3 5 1 3 1 1
Ge 1 2 3 5 0 0
Eq 4 4 4 4 1 1
Eq 4 5 4 4 0 1
Eq 4 5 6 7 0 0
Ne 4 4 4 4 0 0
Ne 4 5 5 7 0 1
Ne 4 5 6 7 1 1";

fn between(low: i128, high: i128) -> Interval
    ensures low { result.low ≡ low }
    ensures high { result.high ≡ high }
{
    Interval { low, high }
}

fn ends(o: Option<Interval>) -> Option<(i128, i128)> {
    match o {
        Some(i) => return Some((i.low, i.high)),
        None => return None,
    }
}

fn interval(low: Option<&str>, high: Option<&str>) -> Option<Interval> {
    Some(between(words::number(low)?, words::number(high)?))
}

// Whether the interval is one of values of the type.
fn is_in(t: IntType, i: Interval) -> bool
    ensures inside { result ≡ true → IsIn t i }
{
    if !is_inside(t, i.low) {
        return false;
    }
    if !is_inside(t, i.high) {
        return false;
    }
    i.low <= i.high
}

fn are_ends(found: Option<Interval>, low: Option<&str>, high: Option<&str>) -> bool {
    match found {
        Some(i) => words::is_number(low, i.low) && words::is_number(high, i.high),
        None => low == Some("none"),
    }
}

fn is_binary(row: &str) -> bool {
    let mut words = row.split(' ');
    let op = words::op(words.next());
    let t = words::int_type(words.next());
    let a = interval(words.next(), words.next());
    let (Some(op), Some(t), Some(a), Some(b)) = (op, t, a, interval(words.next(), words.next()))
    else {
        return false;
    };
    is_in(t, a) && is_in(t, b) && are_ends(binary(op, t, a, b), words.next(), words.next())
}

fn is_unary(row: &str) -> bool {
    let mut words = row.split(' ');
    let op = words::unary_op(words.next());
    let t = words::int_type(words.next());
    let (Some(op), Some(t), Some(a)) = (op, t, interval(words.next(), words.next())) else {
        return false;
    };
    is_in(t, a) && are_ends(unary(op, t, a), words.next(), words.next())
}

fn is_conversion(row: &str) -> bool {
    let mut words = row.split(' ');
    let t = words::int_type(words.next());
    let (Some(t), Some(a)) = (t, interval(words.next(), words.next())) else {
        return false;
    };
    is_in(IntType::LongLong, a) && are_ends(Some(cast(t, a)), words.next(), words.next())
}

fn is_comparison(row: &str) -> bool {
    let mut words = row.split(' ');
    let c = words::comparison(words.next());
    let a = interval(words.next(), words.next());
    let (Some(c), Some(a), Some(b)) = (c, a, interval(words.next(), words.next())) else {
        return false;
    };
    if a.low > a.high || b.low > b.high {
        return false;
    }
    are_ends(Some(compare(c, a, b)), words.next(), words.next())
}

#[test]
fn forms_have_all_results(rt: HostRuntime) {
    for row in BINARY.split('\n') {
        assert!(rt; is_binary(row), "{row}");
    }
    for row in UNARY.split('\n') {
        assert!(rt; is_unary(row), "{row}");
    }
    for row in CONVERSIONS.split('\n') {
        assert!(rt; is_conversion(row), "{row}");
    }
    for row in COMPARISONS.split('\n') {
        assert!(rt; is_comparison(row), "{row}");
    }
}

#[test]
fn others_are_as_worked(rt: HostRuntime) {
    let wide = join(between(-3, 4), between(2, 9));
    assert_eq!(rt; (wide.low, wide.high), (-3, 9));
    let kept = widen(between(0, 5), between(0, 7), range_of(IntType::Int));
    assert_eq!(rt; (kept.low, kept.high), (0, 2147483647));
    let same = widen(between(0, 5), between(2, 5), range_of(IntType::Int));
    assert_eq!(rt; (same.low, same.high), (0, 5));
    assert_eq!(rt;
        ends(pointer_difference(between(0, 40), between(0, 8), 4)),
        Some((-2, 10))
    );
    let truth = pointer_comparison();
    assert_eq!(rt; (truth.low, truth.high), (0, 1));
    let any = pointer_to_int(IntType::UChar);
    assert_eq!(rt; (any.low, any.high), (0, 255));
}
