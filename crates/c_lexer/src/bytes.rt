ghost use Rattle.std.specs.Prelude.{◌≡◌, ◌≤◌, length, drop};
ghost use Rattle.std.specs.List.{prefix_len};
ghost use Rattle.c_lexer.specs.Bytes.{is_digit, is_nondigit, is_word_byte, is_number_byte, is_sign, is_exponent, is_octal, is_hexadecimal, is_blank, in_line};

pub(crate) fn is_digit(b: u8) -> bool
    ensures { result ≡ is_digit b }
{
    b >= b'0' && b <= b'9'
}

pub(crate) fn is_nondigit(b: u8) -> bool
    ensures { result ≡ is_nondigit b }
{
    (b >= b'a' && b <= b'z') || (b >= b'A' && b <= b'Z') || b == b'_'
}

pub(crate) fn is_word_byte(b: u8) -> bool
    ensures { result ≡ is_word_byte b }
{
    is_nondigit(b) || is_digit(b)
}

pub(crate) fn is_number_byte(b: u8) -> bool
    ensures { result ≡ is_number_byte b }
{
    is_word_byte(b) || b == b'.'
}

pub(crate) fn is_sign(b: u8) -> bool
    ensures { result ≡ is_sign b }
{
    b == b'+' || b == b'-'
}

pub(crate) fn is_exponent(b: u8) -> bool
    ensures { result ≡ is_exponent b }
{
    b == b'e' || b == b'E' || b == b'p' || b == b'P'
}

pub(crate) fn is_octal(b: u8) -> bool
    ensures { result ≡ is_octal b }
{
    b >= b'0' && b <= b'7'
}

pub(crate) fn is_hexadecimal(b: u8) -> bool
    ensures { result ≡ is_hexadecimal b }
{
    is_digit(b) || (b >= b'a' && b <= b'f') || (b >= b'A' && b <= b'F')
}

pub(crate) fn is_blank(b: u8) -> bool
    ensures { result ≡ is_blank b }
{
    b == b' ' || b == b'\t' || b == 11 || b == 12 || b == b'\r'
}

fn in_line(b: u8) -> bool
    ensures { result ≡ in_line b }
{
    b != b'\n'
}

/// How many bytes of a word stand at the front.
pub(crate) fn word_len(bytes: &[u8]) -> usize
    ensures value { result ≡ prefix_len is_word_byte bytes.now }
    ensures within { result ≤ length bytes.now }
{
    for (i, b) in bytes.iter().enumerate() {
        if !is_word_byte(*b) {
            return i;
        }
    }
    bytes.len()
}

/// How many bytes of a preprocessing number stand at the front, up to a sign.
pub(crate) fn number_byte_len(bytes: &[u8]) -> usize
    ensures value { result ≡ prefix_len is_number_byte bytes.now }
    ensures within { result ≤ length bytes.now }
{
    for (i, b) in bytes.iter().enumerate() {
        if !is_number_byte(*b) {
            return i;
        }
    }
    bytes.len()
}

/// How many digits stand at the front.
pub(crate) fn digit_len(bytes: &[u8]) -> usize
    ensures value { result ≡ prefix_len is_digit bytes.now }
    ensures within { result ≤ length bytes.now }
{
    for (i, b) in bytes.iter().enumerate() {
        if !is_digit(*b) {
            return i;
        }
    }
    bytes.len()
}

/// How many octal digits stand at the front.
pub(crate) fn octal_digit_len(bytes: &[u8]) -> usize
    ensures value { result ≡ prefix_len is_octal bytes.now }
    ensures within { result ≤ length bytes.now }
{
    for (i, b) in bytes.iter().enumerate() {
        if !is_octal(*b) {
            return i;
        }
    }
    bytes.len()
}

/// How many hexadecimal digits stand at the front.
pub(crate) fn hexadecimal_digit_len(bytes: &[u8]) -> usize
    ensures value { result ≡ prefix_len is_hexadecimal bytes.now }
    ensures within { result ≤ length bytes.now }
{
    for (i, b) in bytes.iter().enumerate() {
        if !is_hexadecimal(*b) {
            return i;
        }
    }
    bytes.len()
}

/// How many bytes are left of the line.
pub(crate) fn line_len(bytes: &[u8]) -> usize
    ensures value { result ≡ prefix_len in_line bytes.now }
    ensures within { result ≤ length bytes.now }
{
    for (i, b) in bytes.iter().enumerate() {
        if !in_line(*b) {
            return i;
        }
    }
    bytes.len()
}

/// What stands behind the first bytes.
pub(crate) fn behind(text: &[u8], len: usize) -> &[u8]
    requires { len ≤ length text.now }
    ensures { result.now ≡ drop len text.now }
{
    &text[len..]
}
