ghost use Rattle.std.specs.Prelude.{◌≡◌, ◌≤◌, ◌<◌, true, length, drop, IfSome, MatchOption, Some, None};
ghost use Rattle.c_lexer.specs.computed.Settings.{begins_byte, closes, close_len, opens_block, opens_line, less_space, no_space, at_end, only_space};

use crate::bytes::{behind, is_blank};

/// Whether the text begins with the byte.
fn begins_byte(byte: u8, text: &[u8]) -> bool
    ensures { result ≡ begins_byte byte text.now }
{
    match text {
        [first, ..] => byte == *first,
        [] => false,
    }
}

/// Whether a comment ends with this byte and the one behind it.
fn closes(first: u8, behind: &[u8]) -> bool
    ensures value { result ≡ closes first behind.now }
    ensures some { result ≡ true → 0 < length behind.now }
{
    first == b'*' && begins_byte(b'/', behind)
}

/// How many bytes there are up to the end of a comment, its `*/` with them.
pub(crate) fn close_len(inside: &[u8]) -> Option<usize>
    ensures value { result ≡ close_len inside.now }
    ensures within { IfSome result (λ n. n ≤ length inside.now) }
{
    for (i, b) in inside.iter().enumerate() {
        if closes(*b, behind(inside, i + 1)) {
            return Some(i + 2);
        }
    }
    None
}

/// Whether a comment of the kind `/*` begins here.
pub(crate) fn opens_block(text: &[u8]) -> bool
    ensures value { result ≡ opens_block text.now }
    ensures within { result ≡ true → 2 ≤ length text.now }
{
    match text {
        [first, behind @ ..] => *first == b'/' && begins_byte(b'*', behind),
        [] => false,
    }
}

/// Whether a comment of the kind `//` begins here.
pub(crate) fn opens_line(text: &[u8]) -> bool
    ensures { result ≡ opens_line text.now }
{
    match text {
        [first, behind @ ..] => *first == b'/' && begins_byte(b'/', behind),
        [] => false,
    }
}

/// A text without the blank or the comment at its front.
fn less_space(text: &[u8]) -> Option<&[u8]>
    ensures { MatchOption result (less_space text.now ≡ None) (λ rest. less_space text.now ≡ Some rest.now) }
{
    let [first, rest @ ..] = text else {
        return None;
    };
    if is_blank(*first) {
        return Some(rest);
    }
    if !opens_block(text) {
        return None;
    }
    let inside = behind(text, 2);
    match close_len(inside) {
        Some(len) => Some(behind(inside, len)),
        None => None,
    }
}

/// What stands behind blanks and comments.
pub(crate) fn no_space(text: &[u8]) -> &[u8]
    ensures { result.now ≡ no_space text.now }
{
    let mut rest = text;
    for _turn in 0..text.len() {
        match less_space(rest) {
            Some(less) => {
                rest = less;
            }
            None => {
                return rest;
            }
        }
    }
    rest
}

/// Whether the line ends here, or a comment goes on to its end.
fn at_end(text: &[u8]) -> bool
    ensures { result ≡ at_end text.now }
{
    text.is_empty() || opens_line(text)
}

/// Whether the rest of the line is white space.
pub(crate) fn only_space(text: &[u8]) -> bool
    ensures { result ≡ only_space text.now }
{
    at_end(no_space(text))
}
