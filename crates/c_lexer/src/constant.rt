ghost use Rattle.std.specs.Prelude.{◌≡◌, ◌≤◌, ◌<◌, ◌^◌, ◌∷◌, [], length, MatchOption, Some, None};
ghost use Rattle.std.specs.Char.{digit_value};
ghost use Rattle.std.specs.Str.Parse.{digits_value};
ghost use Rattle.c_lexer.specs.Constants.{is_u, is_l, is_x, suffix_of, candidates, first_holding};
ghost use Rattle.c_lexer.specs.computed.Values.{hexadecimal_in, constant_in, constant};

use crate::bytes::{digit_len, hexadecimal_digit_len, is_digit, octal_digit_len};
use c_values::{IntType, is_inside};

/// The suffix of an integer constant (ISO/IEC 9899:1999, 6.4.4.1): whether it has a `u`, and how many `l`.
#[derive(Clone, Copy, Debug, PartialEq, Eq)]
pub(crate) struct Suffix {
    pub(crate) is_unsigned: bool,
    pub(crate) longs: u8,
}

fn is_u(b: u8) -> bool
    ensures { result ≡ is_u b }
{
    b == b'u' || b == b'U'
}

fn is_l(b: u8) -> bool
    ensures { result ≡ is_l b }
{
    b == b'l' || b == b'L'
}

pub(crate) fn is_x(b: u8) -> bool
    ensures { result ≡ is_x b }
{
    b == b'x' || b == b'X'
}

fn some_suffix(is_unsigned: bool, longs: u8) -> Option<Suffix>
    ensures { result ≡ Some (record { is_unsigned = is_unsigned; longs = longs }) }
{
    Some(Suffix { is_unsigned, longs })
}

#[tactic(auto, unfolding(crate::specs::Constants::suffix_of))]
fn suffix_of_two(a: u8, b: u8) -> Option<Suffix>
    ensures { result ≡ suffix_of (a ∷ b ∷ []) }
{
    if (is_u(a) && is_l(b)) || (is_l(a) && is_u(b)) {
        some_suffix(true, 1)
    } else if is_l(a) && a == b {
        some_suffix(false, 2)
    } else {
        None
    }
}

#[tactic(auto, unfolding(crate::specs::Constants::suffix_of))]
fn suffix_of_three(a: u8, b: u8, c: u8) -> Option<Suffix>
    ensures { result ≡ suffix_of (a ∷ b ∷ c ∷ []) }
{
    if (is_u(a) && is_l(b) && b == c) || (is_l(a) && a == b && is_u(c)) {
        some_suffix(true, 2)
    } else {
        None
    }
}

#[tactic(auto, unfolding(crate::specs::Constants::suffix_of))]
fn suffix_of_one(a: u8) -> Option<Suffix>
    ensures { result ≡ suffix_of (a ∷ []) }
{
    if is_u(a) {
        some_suffix(true, 0)
    } else if is_l(a) {
        some_suffix(false, 1)
    } else {
        None
    }
}

/// The suffix that a text is, where it is one.
#[tactic(auto, unfolding(crate::specs::Constants::suffix_of))]
fn suffix_of(text: &[u8]) -> Option<Suffix>
    ensures { result ≡ suffix_of text.now }
{
    match text {
        [] => some_suffix(false, 0),
        [a] => suffix_of_one(*a),
        [a, b] => suffix_of_two(*a, *b),
        [a, b, c] => suffix_of_three(*a, *b, *c),
        _ => None,
    }
}

/// The types that a constant may have, the first that holds it before the others.
fn candidates(base: u64, suffix: Suffix) -> &'static [IntType]
    ensures { result.now ≡ candidates base suffix }
{
    match (suffix.is_unsigned, base == 10, suffix.longs) {
        (true, _, 0) => &[IntType::UInt, IntType::ULong, IntType::ULongLong],
        (true, _, 1) => &[IntType::ULong, IntType::ULongLong],
        (true, _, _) => &[IntType::ULongLong],
        (false, true, 0) => &[IntType::Int, IntType::Long, IntType::LongLong],
        (false, true, 1) => &[IntType::Long, IntType::LongLong],
        (false, true, _) => &[IntType::LongLong],
        (false, false, 0) => &[
            IntType::Int,
            IntType::UInt,
            IntType::Long,
            IntType::ULong,
            IntType::LongLong,
            IntType::ULongLong,
        ],
        (false, false, 1) => &[
            IntType::Long,
            IntType::ULong,
            IntType::LongLong,
            IntType::ULongLong,
        ],
        (false, false, _) => &[IntType::LongLong, IntType::ULongLong],
    }
}

fn first_holding(value: u64, types: &[IntType]) -> Option<IntType>
    ensures { result ≡ first_holding value types.now }
{
    for kind in types {
        if is_inside(*kind, i128::from(value)) {
            return Some(*kind);
        }
    }
    None
}

fn digit_value(b: u8) -> u64
    ensures { result ≡ digit_value b }
{
    match b {
        b'0'..=b'9' => u64::from(b - b'0'),
        b'A'..=b'Z' => u64::from(b - b'A') + 10,
        b'a'..=b'z' => u64::from(b - b'a') + 10,
        _ => 36,
    }
}

/// The number that digits write, where 64 bits hold it.
pub(crate) fn value_of(base: u64, digits: &[u8]) -> Option<u64>
    requires { 0 < base }
    ensures { MatchOption result (2 ^ 64 ≤ digits_value base digits.now) (λ v. v ≡ digits_value base digits.now) }
{
    let mut value = 0u64;
    for b in digits {
        let Some(shifted) = value.checked_mul(base) else {
            return None;
        };
        let Some(more) = shifted.checked_add(digit_value(*b)) else {
            return None;
        };
        value = more;
    }
    Some(value)
}

/// A constant of a base, of whose bytes so many are digits.
fn constant_in(base: u64, len: usize, text: &[u8]) -> Option<(u64, IntType)>
    requires base { 0 < base }
    requires within { len ≤ length text.now }
    ensures { result ≡ constant_in base len text.now }
{
    let (digits, behind) = text.split_at(len);
    let suffix = suffix_of(behind)?;
    let value = value_of(base, digits)?;
    let kind = first_holding(value, candidates(base, suffix))?;
    Some((value, kind))
}

fn hexadecimal_in(text: &[u8]) -> Option<(u64, IntType)>
    ensures { result ≡ hexadecimal_in text.now }
{
    let len = hexadecimal_digit_len(text);
    if len == 0 {
        None
    } else {
        constant_in(16, len, text)
    }
}

/// The value and the type of an integer constant.
#[tactic(auto, unfolding(crate::specs::computed::Values::constant))]
pub(crate) fn constant(text: &[u8]) -> Option<(u64, IntType)>
    ensures { result ≡ constant text.now }
{
    match text {
        [b'0', second, rest @ ..] => {
            if is_x(*second) {
                hexadecimal_in(rest)
            } else {
                constant_in(8, octal_digit_len(text), text)
            }
        }
        [b'0'] => constant_in(8, 1, text),
        [first, ..] => {
            if is_digit(*first) {
                constant_in(10, digit_len(text), text)
            } else {
                None
            }
        }
        [] => None,
    }
}
