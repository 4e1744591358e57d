ghost use Rattle.std.specs.Prelude.{◌≡◌, ◌≤◌, true, length};
ghost use Rattle.std.specs.Str.{all_ascii_digits};
ghost use Rattle.std.specs.Str.Parse.{digits_value};
ghost use Rattle.first_form.specs.computed.Reading.{is_number, number_of};

use crate::bytes::is_digit;

/// Whether each byte is a digit.
fn all_digits(text: &[u8]) -> bool
    ensures { result ≡ all_ascii_digits text.now }
{
    for b in text {
        if !is_digit(*b) {
            return false;
        }
    }
    true
}

/// Whether the text is 0, or 1 to 9 digits without a leading zero.
fn is_number(text: &[u8]) -> bool
    ensures { result ≡ is_number text.now }
{
    all_digits(text) && !text.is_empty() && text.len() <= 9 && (text[0] != b'0' || text.len() == 1)
}

fn value_of(text: &[u8]) -> u32
    requires digits { all_ascii_digits text.now ≡ true }
    requires short { length text.now ≤ 9 }
    ensures { result ≡ digits_value 10 text.now }
{
    let mut value = 0u32;
    for b in text {
        value = value * 10 + u32::from(*b - b'0');
    }
    value
}

/// The value of a number's text.
pub(crate) fn number_of(text: &[u8]) -> Option<u32>
    ensures { result ≡ number_of text.now }
{
    if is_number(text) {
        Some(value_of(text))
    } else {
        None
    }
}
