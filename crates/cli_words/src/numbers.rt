ghost use Rattle.std.specs.Prelude.{◌≡◌, ◌&&◌, nat_le, length};
ghost use Rattle.std.specs.List.{list_all};
ghost use Rattle.std.specs.Char.{is_ascii_digit};
ghost use Rattle.cli_words.specs.Numbers.{number_between, is_number};

/// The number that a text of one to ten ASCII digits writes, where it lies in a range.
pub(crate) fn number_between(text: &[u8], low: u32, high: u32) -> Option<u32>
    ensures { result ≡ number_between low high text.now }
{
    if !is_number(text) {
        return None;
    }
    let mut value: u64 = 0;
    for digit in text {
        value = 10 * value + u64::from(digit.saturating_sub(b'0'));
        if value > u64::from(high) {
            return None;
        }
    }
    if value < u64::from(low) {
        return None;
    }
    Some(value as u32)
}

fn is_number(text: &[u8]) -> bool
    ensures { result ≡ is_number text.now }
{
    has_length(text) && has_digits_alone(text)
}

fn has_digits_alone(text: &[u8]) -> bool
    ensures { result ≡ list_all is_ascii_digit text.now }
{
    text.iter().all(|byte| byte.is_ascii_digit())
}

fn has_length(text: &[u8]) -> bool
    ensures { result ≡ nat_le 1 (length text.now) && nat_le (length text.now) 10 }
{
    let length = text.len();
    1 <= length && length <= 10
}
