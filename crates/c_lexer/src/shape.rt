ghost use Rattle.std.specs.Prelude.{◌≡◌, ◌≤◌, ◌<◌, ◌+◌, length, false, IfSome};
ghost use Rattle.c_lexer.specs.computed.Lengths.{number_more, quoted_more, one_more, begins_with_digit, shape_at};

use crate::bytes::{is_digit, is_exponent, is_nondigit, is_number_byte, is_sign, word_len};
use crate::marks::mark_len;

/// What a token is by its first byte, with the number of a punctuator.
#[derive(Clone, Copy, Debug, PartialEq, Eq)]
pub(crate) enum Shape {
    Word,
    Number,
    Character,
    Text,
    Mark(u8),
}

/// How many bytes go on a preprocessing number behind its byte `first` (ISO/IEC 9899:1999, 6.4.8).
fn number_more(first: u8, bytes: &[u8]) -> usize
    ensures value { result ≡ number_more first bytes.now }
    ensures within { result ≤ length bytes.now }
{
    let mut last = first;
    for (i, b) in bytes.iter().enumerate() {
        if !(is_number_byte(*b) || (is_sign(*b) && is_exponent(last))) {
            return i;
        }
        last = *b;
    }
    bytes.len()
}

/// How many bytes there are behind an opening quote, up to the closing one and with it, where it comes in the line.
fn quoted_more(quote: u8, bytes: &[u8]) -> Option<usize>
    ensures value { result ≡ quoted_more quote false bytes.now }
    ensures within { IfSome result (λ n. n ≤ length bytes.now) }
{
    let mut escaped = false;
    for (i, b) in bytes.iter().enumerate() {
        if *b == b'\n' {
            return None;
        }
        if !escaped && *b == quote {
            return Some(i + 1);
        }
        escaped = !escaped && *b == b'\\';
    }
    None
}

/// The length of a literal of the quote, which is its first byte.
fn quoted_len(quote: u8, behind: &[u8]) -> Option<usize>
    ensures value { result ≡ one_more (quoted_more quote false behind.now) }
    ensures within { IfSome result (λ n. (0 < n) × (n ≤ length behind.now + 1)) }
{
    let more = quoted_more(quote, behind)?;
    Some(more + 1)
}

fn begins_with_digit(bytes: &[u8]) -> bool
    ensures { result ≡ begins_with_digit bytes.now }
{
    match bytes {
        [first, ..] => is_digit(*first),
        [] => false,
    }
}

/// The shape and the length of the token at the front.
#[tactic(auto, unfolding(crate::specs::computed::Lengths::shape_at))]
pub(crate) fn shape_at(text: &[u8]) -> Option<(Shape, usize)>
    ensures value { result ≡ shape_at text.now }
    ensures within { IfSome result (λ p. (0 < p.1) × (p.1 ≤ length text.now)) }
{
    let [first, behind @ ..] = text else {
        return None;
    };
    if is_nondigit(*first) {
        return Some((Shape::Word, 1 + word_len(behind)));
    }
    if is_digit(*first) || (*first == b'.' && begins_with_digit(behind)) {
        return Some((Shape::Number, 1 + number_more(*first, behind)));
    }
    if *first == b'\'' {
        let len = quoted_len(b'\'', behind)?;
        return Some((Shape::Character, len));
    }
    if *first == b'"' {
        let len = quoted_len(b'"', behind)?;
        return Some((Shape::Text, len));
    }
    let (number, len) = mark_len(text)?;
    Some((Shape::Mark(number), len))
}
