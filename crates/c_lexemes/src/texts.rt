//! The bytes that string literals stand for (ISO/IEC 9899:1999, 6.4.5), whose form the lexer has tested.

use sqlite_items::Items;
use std::alloc::{AllocError, Global};

/// The value of an octal digit.
fn octal(byte: u8) -> Option<u8> {
    match byte {
        b'0'..=b'7' => Some(byte - b'0'),
        _ => None,
    }
}

/// The value of a hexadecimal digit.
fn hexadecimal(byte: u8) -> Option<u8> {
    match byte {
        b'0'..=b'9' => Some(byte - b'0'),
        b'a'..=b'f' => Some(byte - b'a' + 10),
        b'A'..=b'F' => Some(byte - b'A' + 10),
        _ => None,
    }
}

/// The byte of up to three octal digits, and what stands behind them. A value that no byte has, which the lexer refuses,
/// loses its high bits.
fn octal_escape(text: &[u8]) -> (u8, &[u8]) {
    let mut value = 0u8;
    let mut rest = text;
    for _digit in 0..3 {
        let [first, behind @ ..] = rest else {
            return (value, rest);
        };
        let Some(digit) = octal(*first) else {
            return (value, rest);
        };
        value = value.wrapping_mul(8).wrapping_add(digit);
        rest = behind;
    }
    (value, rest)
}

/// The same of all the hexadecimal digits.
fn hexadecimal_escape(text: &[u8]) -> (u8, &[u8]) {
    let mut value = 0u8;
    let mut rest = text;
    for _digit in 0..text.len() {
        let [first, behind @ ..] = rest else {
            return (value, rest);
        };
        let Some(digit) = hexadecimal(*first) else {
            return (value, rest);
        };
        value = value.wrapping_mul(16).wrapping_add(digit);
        rest = behind;
    }
    (value, rest)
}

/// The byte of a simple escape, by the byte behind its backslash.
fn simple(byte: u8) -> u8 {
    match byte {
        b'a' => 7,
        b'b' => 8,
        b'f' => 12,
        b'n' => 10,
        b'r' => 13,
        b't' => 9,
        b'v' => 11,
        _ => byte,
    }
}

/// The byte of the escape behind a backslash, and what stands behind the escape.
fn escape(text: &[u8]) -> (u8, &[u8]) {
    match text {
        [b'0'..=b'7', ..] => octal_escape(text),
        [b'x', digits @ ..] => hexadecimal_escape(digits),
        [first, rest @ ..] => (simple(*first), rest),
        [] => (0, text),
    }
}

/// The bytes of the characters between the quotes.
fn bytes_of(alloc: Global, body: &[u8]) -> Result<Items<u8>, AllocError> {
    let mut found = Items::new(alloc);
    let mut rest = body;
    for _character in 0..body.len() {
        let [first, behind @ ..] = rest else {
            return Ok(found);
        };
        if *first == b'\\' {
            let (byte, behind) = escape(behind);
            found.push(byte)?;
            rest = behind;
        } else {
            found.push(*first)?;
            rest = behind;
        }
    }
    Ok(found)
}

/// The bytes of a string literal by its text, its quotes included, without the zero at its end.
pub(crate) fn text_bytes(alloc: Global, text: &[u8]) -> Result<Items<u8>, AllocError> {
    match text {
        [_, body @ .., _] => bytes_of(alloc, body),
        _ => Ok(Items::new(alloc)),
    }
}
