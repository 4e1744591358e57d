ghost use Rattle.std.specs.Prelude.{◌≡◌, ◌<◌, ◌≤◌, length, IfSome};
ghost use Rattle.std.specs.List.{prefix_len};
ghost use Rattle.c_lexer.specs.Bytes.{is_digit, is_nondigit, is_word_byte, is_number_byte};
ghost use Rattle.first_form.specs.Marks.{is_mark};
ghost use Rattle.first_form.specs.computed.Scan.{piece_len};

pub(crate) fn is_digit(b: u8) -> bool
    ensures { result ≡ is_digit b }
{
    b >= b'0' && b <= b'9'
}

pub(crate) fn is_nondigit(b: u8) -> bool
    ensures { result ≡ is_nondigit b }
{
    (b >= b'a' && b <= b'z') || (b >= b'A' && b <= b'Z') || b == b'_'
}

fn is_mark(b: u8) -> bool
    ensures { result ≡ is_mark b }
{
    matches!(b, b'[' | b']' | b'(' | b')' | b'{' | b'}' | b';' | b'=')
}

/// How many bytes of a word stand at the front.
fn word_len(bytes: &[u8]) -> usize
    ensures value { result ≡ prefix_len is_word_byte bytes.now }
    ensures bound { result ≤ length bytes.now }
{
    for (i, b) in bytes.iter().enumerate() {
        if !(is_nondigit(*b) || is_digit(*b)) {
            return i;
        }
    }
    bytes.len()
}

/// How many bytes of a preprocessing number stand at the front, up to a sign.
fn number_len(bytes: &[u8]) -> usize
    ensures value { result ≡ prefix_len is_number_byte bytes.now }
    ensures bound { result ≤ length bytes.now }
{
    for (i, b) in bytes.iter().enumerate() {
        if !(is_nondigit(*b) || is_digit(*b) || *b == b'.') {
            return i;
        }
    }
    bytes.len()
}

/// How many digits stand at the front.
fn digits_len(bytes: &[u8]) -> usize
    ensures value { result ≡ prefix_len is_digit bytes.now }
    ensures bound { result ≤ length bytes.now }
{
    for (i, b) in bytes.iter().enumerate() {
        if !is_digit(*b) {
            return i;
        }
    }
    bytes.len()
}

/// The length of the token at the front, where it is one that the form has.
pub(crate) fn piece_len(bytes: &[u8]) -> Option<usize>
    ensures value { result ≡ piece_len bytes.now }
    ensures bounds { IfSome result (λ n. (0 < n) × (n ≤ length bytes.now)) }
{
    match bytes {
        [] => None,
        [first, rest @ ..] => {
            if is_nondigit(*first) {
                Some(1 + word_len(rest))
            } else if is_digit(*first) {
                let digits = digits_len(rest);
                if number_len(rest) == digits {
                    Some(1 + digits)
                } else {
                    None
                }
            } else if is_mark(*first) {
                if *first == b'=' && rest.starts_with(b"=") {
                    None
                } else {
                    Some(1)
                }
            } else {
                None
            }
        }
    }
}
