ghost use Rattle.std.specs.Prelude.{◌≡◌, ◌≤◌, ◌<◌, ◌+◌, ◌||◌, length, take, IfSome};
ghost use Rattle.std.specs.List.{list_any, prefix_len};
ghost use Rattle.c_lexer.specs.Bytes.{is_hexadecimal};
ghost use Rattle.std.specs.Str.Parse.{digits_value};
ghost use Rattle.c_lexer.specs.Characters.{simple, in_byte, is_universal};
ghost use Rattle.c_lexer.specs.Meaning.{is_wrong, is_universal_name};
ghost use Rattle.c_lexer.specs.computed.Values.{octal_len, hexadecimal_escape, escape, character_at, all_characters};

use crate::bytes::{behind, hexadecimal_digit_len, is_octal, octal_digit_len};
use crate::constant::value_of;

/// One character of a literal (ISO/IEC 9899:1999, 6.4.4.4).
#[derive(Clone, Copy, Debug, PartialEq, Eq)]
pub(crate) enum Character {
    Byte(u8),
    /// A universal character name (6.4.3).
    Universal,
    /// No escape, or a numeric one whose value is no byte's.
    Wrong,
}

/// The byte that a simple escape stands for, by the byte behind its backslash.
fn simple(b: u8) -> Option<u8>
    ensures { result ≡ simple b }
{
    match b {
        b'\'' | b'"' | b'?' | b'\\' => Some(b),
        b'a' => Some(7),
        b'b' => Some(8),
        b'f' => Some(12),
        b'n' => Some(10),
        b'r' => Some(13),
        b't' => Some(9),
        b'v' => Some(11),
        _ => None,
    }
}

/// The character of a numeric escape.
fn numeric(base: u64, digits: &[u8]) -> Character
    requires { 0 < base }
    ensures { result ≡ in_byte (digits_value base digits.now) }
{
    match value_of(base, digits) {
        Some(value) if value < 256 => Character::Byte(value as u8),
        _ => Character::Wrong,
    }
}

/// How many digits an octal escape has, at most three.
fn octal_len(text: &[u8]) -> usize
    ensures value { result ≡ octal_len text.now }
    ensures within { result ≤ length text.now }
{
    octal_digit_len(text).min(3)
}

fn hexadecimal_escape(behind: &[u8]) -> (Character, usize)
    ensures value { result ≡ hexadecimal_escape (prefix_len is_hexadecimal behind.now) behind.now }
    ensures within { result.1 ≤ length behind.now + 1 }
{
    let len = hexadecimal_digit_len(behind);
    if len == 0 {
        (Character::Wrong, 1)
    } else {
        (numeric(16, &behind[..len]), len + 1)
    }
}

/// The character of an escape, behind its backslash, with its length there.
fn escape(behind: &[u8]) -> (Character, usize)
    ensures value { result ≡ escape behind.now }
    ensures within { result.1 ≤ length behind.now }
{
    let [first, rest @ ..] = behind else {
        return (Character::Wrong, 0);
    };
    if is_octal(*first) {
        let len = octal_len(behind);
        return (numeric(8, &behind[..len]), len);
    }
    if *first == b'x' {
        return hexadecimal_escape(rest);
    }
    if *first == b'u' || *first == b'U' {
        return (Character::Universal, 1);
    }
    match simple(*first) {
        Some(value) => (Character::Byte(value), 1),
        None => (Character::Wrong, 1),
    }
}

/// The character at the front, with its length.
#[tactic(auto, unfolding(crate::specs::computed::Values::character_at))]
pub(crate) fn character_at(text: &[u8]) -> (Character, usize)
    ensures value { result ≡ character_at text.now }
    ensures within { result.1 ≤ length text.now }
    ensures some { 0 < length text.now → 0 < result.1 }
{
    let [first, behind @ ..] = text else {
        return (Character::Wrong, 0);
    };
    if *first == b'\\' {
        let (character, len) = escape(behind);
        (character, len + 1)
    } else {
        (Character::Byte(*first), 1)
    }
}

/// What the characters of a literal say against it.
#[derive(Clone, Copy, Debug, PartialEq, Eq)]
pub(crate) struct Flaws {
    /// A character is wrong.
    pub(crate) has_wrong: bool,
    /// A character is a universal character name.
    pub(crate) has_universal: bool,
}

fn is_wrong(character: Character) -> bool
    ensures { result ≡ is_wrong character }
{
    match character {
        Character::Wrong => true,
        Character::Universal | Character::Byte(_) => false,
    }
}

fn is_universal(character: Character) -> bool
    ensures { result ≡ is_universal_name character }
{
    match character {
        Character::Universal => true,
        Character::Wrong | Character::Byte(_) => false,
    }
}

/// With one more character.
fn with_character(found: Flaws, character: Character) -> Flaws
    ensures wrong { result.has_wrong ≡ (found.has_wrong || is_wrong character) }
    ensures universal { result.has_universal ≡ (found.has_universal || is_universal_name character) }
{
    Flaws {
        has_wrong: found.has_wrong || is_wrong(character),
        has_universal: found.has_universal || is_universal(character),
    }
}

/// Goes through the characters between the quotes.
pub(crate) fn flaws_in(body: &[u8]) -> Flaws
    ensures wrong { result.has_wrong ≡ list_any is_wrong (all_characters body.now) }
    ensures universal { result.has_universal ≡ list_any is_universal_name (all_characters body.now) }
{
    let mut found = Flaws {
        has_wrong: false,
        has_universal: false,
    };
    let mut rest = body;
    for _turn in 0..body.len() {
        if rest.is_empty() {
            return found;
        }
        let (character, len) = character_at(rest);
        found = with_character(found, character);
        rest = behind(rest, len);
    }
    found
}
