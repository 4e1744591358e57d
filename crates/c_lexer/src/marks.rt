ghost use Rattle.std.specs.Prelude.{◌≡◌, ◌∷◌, ◌+◌, ◌≤◌, ◌<◌, IfSome, length};
ghost use Rattle.c_lexer.specs.computed.Marks.{mark_len};

use c_syntax::marks::*;

/// The mark at the front of a text that begins with `.`, with its length; `rest` is what stands behind that byte.
fn period(rest: &[u8]) -> (u8, usize)
    ensures value { Some result ≡ mark_len (46 ∷ rest.now) }
    ensures within { result.1 ≤ length rest.now + 1 }
    ensures some { 0 < result.1 }
{
    if rest.starts_with(b"..") {
        (ELLIPSIS, 3)
    } else {
        (PERIOD, 1)
    }
}

/// The mark at the front of a text that begins with `-`, with its length; `rest` is what stands behind that byte.
#[tactic(auto, unfolding(crate::specs::computed::Marks::mark_len))]
fn minus(rest: &[u8]) -> (u8, usize)
    ensures value { Some result ≡ mark_len (45 ∷ rest.now) }
    ensures within { result.1 ≤ length rest.now + 1 }
    ensures some { 0 < result.1 }
{
    match rest {
        [b'>', ..] => (ARROW, 2),
        [b'-', ..] => (MINUS_MINUS, 2),
        [b'=', ..] => (MINUS_EQUAL, 2),
        _ => (MINUS, 1),
    }
}

/// The mark at the front of a text that begins with `+`, with its length; `rest` is what stands behind that byte.
#[tactic(auto, unfolding(crate::specs::computed::Marks::mark_len))]
fn plus(rest: &[u8]) -> (u8, usize)
    ensures value { Some result ≡ mark_len (43 ∷ rest.now) }
    ensures within { result.1 ≤ length rest.now + 1 }
    ensures some { 0 < result.1 }
{
    match rest {
        [b'+', ..] => (PLUS_PLUS, 2),
        [b'=', ..] => (PLUS_EQUAL, 2),
        _ => (PLUS, 1),
    }
}

/// The mark at the front of a text that begins with `&`, with its length; `rest` is what stands behind that byte.
#[tactic(auto, unfolding(crate::specs::computed::Marks::mark_len))]
fn ampersand(rest: &[u8]) -> (u8, usize)
    ensures value { Some result ≡ mark_len (38 ∷ rest.now) }
    ensures within { result.1 ≤ length rest.now + 1 }
    ensures some { 0 < result.1 }
{
    match rest {
        [b'&', ..] => (AND_AND, 2),
        [b'=', ..] => (AND_EQUAL, 2),
        _ => (AMPERSAND, 1),
    }
}

/// The mark at the front of a text that begins with `*`, with its length; `rest` is what stands behind that byte.
#[tactic(auto, unfolding(crate::specs::computed::Marks::mark_len))]
fn asterisk(rest: &[u8]) -> (u8, usize)
    ensures value { Some result ≡ mark_len (42 ∷ rest.now) }
    ensures within { result.1 ≤ length rest.now + 1 }
    ensures some { 0 < result.1 }
{
    match rest {
        [b'=', ..] => (TIMES_EQUAL, 2),
        _ => (ASTERISK, 1),
    }
}

/// The mark at the front of a text that begins with `!`, with its length; `rest` is what stands behind that byte.
#[tactic(auto, unfolding(crate::specs::computed::Marks::mark_len))]
fn exclamation(rest: &[u8]) -> (u8, usize)
    ensures value { Some result ≡ mark_len (33 ∷ rest.now) }
    ensures within { result.1 ≤ length rest.now + 1 }
    ensures some { 0 < result.1 }
{
    match rest {
        [b'=', ..] => (NOT_EQUAL, 2),
        _ => (EXCLAMATION, 1),
    }
}

/// The mark at the front of a text that begins with `/`, with its length; `rest` is what stands behind that byte.
#[tactic(auto, unfolding(crate::specs::computed::Marks::mark_len))]
fn slash(rest: &[u8]) -> (u8, usize)
    ensures value { Some result ≡ mark_len (47 ∷ rest.now) }
    ensures within { result.1 ≤ length rest.now + 1 }
    ensures some { 0 < result.1 }
{
    match rest {
        [b'=', ..] => (OVER_EQUAL, 2),
        _ => (SLASH, 1),
    }
}

/// The mark at the front of a text that begins with `%`, with its length; `rest` is what stands behind that byte.
#[tactic(auto, unfolding(crate::specs::computed::Marks::mark_len))]
fn percent(rest: &[u8]) -> (u8, usize)
    ensures value { Some result ≡ mark_len (37 ∷ rest.now) }
    ensures within { result.1 ≤ length rest.now + 1 }
    ensures some { 0 < result.1 }
{
    match rest {
        [b'=', ..] => (REMAINDER_EQUAL, 2),
        [b'>', ..] => (RIGHT_BRACE, 2),
        _ => (PERCENT, 1),
    }
}

/// The mark at the front of a text that begins with `<`, with its length; `rest` is what stands behind that byte.
#[tactic(auto, unfolding(crate::specs::computed::Marks::mark_len))]
fn less(rest: &[u8]) -> (u8, usize)
    ensures value { Some result ≡ mark_len (60 ∷ rest.now) }
    ensures within { result.1 ≤ length rest.now + 1 }
    ensures some { 0 < result.1 }
{
    match rest {
        [b'<', b'=', ..] => (SHIFT_LEFT_EQUAL, 3),
        [b'<', ..] => (SHIFT_LEFT, 2),
        [b'=', ..] => (LESS_EQUAL, 2),
        [b':', ..] => (LEFT_BRACKET, 2),
        [b'%', ..] => (LEFT_BRACE, 2),
        _ => (LESS, 1),
    }
}

/// The mark at the front of a text that begins with `>`, with its length; `rest` is what stands behind that byte.
#[tactic(auto, unfolding(crate::specs::computed::Marks::mark_len))]
fn greater(rest: &[u8]) -> (u8, usize)
    ensures value { Some result ≡ mark_len (62 ∷ rest.now) }
    ensures within { result.1 ≤ length rest.now + 1 }
    ensures some { 0 < result.1 }
{
    match rest {
        [b'>', b'=', ..] => (SHIFT_RIGHT_EQUAL, 3),
        [b'>', ..] => (SHIFT_RIGHT, 2),
        [b'=', ..] => (GREATER_EQUAL, 2),
        _ => (GREATER, 1),
    }
}

/// The mark at the front of a text that begins with `=`, with its length; `rest` is what stands behind that byte.
#[tactic(auto, unfolding(crate::specs::computed::Marks::mark_len))]
fn equal(rest: &[u8]) -> (u8, usize)
    ensures value { Some result ≡ mark_len (61 ∷ rest.now) }
    ensures within { result.1 ≤ length rest.now + 1 }
    ensures some { 0 < result.1 }
{
    match rest {
        [b'=', ..] => (EQUAL_EQUAL, 2),
        _ => (EQUAL, 1),
    }
}

/// The mark at the front of a text that begins with `^`, with its length; `rest` is what stands behind that byte.
#[tactic(auto, unfolding(crate::specs::computed::Marks::mark_len))]
fn caret(rest: &[u8]) -> (u8, usize)
    ensures value { Some result ≡ mark_len (94 ∷ rest.now) }
    ensures within { result.1 ≤ length rest.now + 1 }
    ensures some { 0 < result.1 }
{
    match rest {
        [b'=', ..] => (XOR_EQUAL, 2),
        _ => (CARET, 1),
    }
}

/// The mark at the front of a text that begins with `|`, with its length; `rest` is what stands behind that byte.
#[tactic(auto, unfolding(crate::specs::computed::Marks::mark_len))]
fn bar(rest: &[u8]) -> (u8, usize)
    ensures value { Some result ≡ mark_len (124 ∷ rest.now) }
    ensures within { result.1 ≤ length rest.now + 1 }
    ensures some { 0 < result.1 }
{
    match rest {
        [b'|', ..] => (OR_OR, 2),
        [b'=', ..] => (OR_EQUAL, 2),
        _ => (BAR, 1),
    }
}

/// The mark at the front of a text that begins with `:`, with its length; `rest` is what stands behind that byte.
#[tactic(auto, unfolding(crate::specs::computed::Marks::mark_len))]
fn colon(rest: &[u8]) -> (u8, usize)
    ensures value { Some result ≡ mark_len (58 ∷ rest.now) }
    ensures within { result.1 ≤ length rest.now + 1 }
    ensures some { 0 < result.1 }
{
    match rest {
        [b'>', ..] => (RIGHT_BRACKET, 2),
        _ => (COLON, 1),
    }
}

/// The longest punctuator at the front, with its length in bytes.
#[tactic(auto, unfolding(crate::specs::computed::Marks::mark_len))]
pub(crate) fn mark_len(text: &[u8]) -> Option<(u8, usize)>
    ensures value { result ≡ mark_len text.now }
    ensures within { IfSome result (λ r. (0 < r.1) × (r.1 ≤ length text.now)) }
{
    let [first, rest @ ..] = text else {
        return None;
    };
    match *first {
        b'[' => Some((LEFT_BRACKET, 1)),
        b']' => Some((RIGHT_BRACKET, 1)),
        b'(' => Some((LEFT_PARENTHESIS, 1)),
        b')' => Some((RIGHT_PARENTHESIS, 1)),
        b'{' => Some((LEFT_BRACE, 1)),
        b'}' => Some((RIGHT_BRACE, 1)),
        b'~' => Some((TILDE, 1)),
        b'?' => Some((QUESTION, 1)),
        b';' => Some((SEMICOLON, 1)),
        b',' => Some((COMMA, 1)),
        b'.' => Some(period(rest)),
        b'-' => Some(minus(rest)),
        b'+' => Some(plus(rest)),
        b'&' => Some(ampersand(rest)),
        b'*' => Some(asterisk(rest)),
        b'!' => Some(exclamation(rest)),
        b'/' => Some(slash(rest)),
        b'%' => Some(percent(rest)),
        b'<' => Some(less(rest)),
        b'>' => Some(greater(rest)),
        b'=' => Some(equal(rest)),
        b'^' => Some(caret(rest)),
        b'|' => Some(bar(rest)),
        b':' => Some(colon(rest)),
        _ => None,
    }
}
