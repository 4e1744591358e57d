ghost use Rattle.std.specs.Prelude.{◌≡◌, ◌≤◌, ◌∷◌, Ok, Err};
ghost use Rattle.std.specs.List.{list_any};
ghost use Rattle.c_syntax.specs.Keywords.{keyword_number};
ghost use Rattle.c_lexer.specs.Meaning.{word_kind, is_hexadecimal_text, is_floating_byte, is_floating, no_constant, signed, only_character, character_meaning, text_meaning, widened};
ghost use Rattle.c_lexer.specs.computed.Values.{number_kind, constant, all_characters, unquoted, meaning};

use crate::character::{Character, character_at, flaws_in};
use crate::constant::{constant, is_x};
use crate::shape::Shape;
use c_syntax::{TokenKind, keyword_number};
use sv_base::FaultKind;

/// A wide, universal or long character.
const WIDE: FaultKind = FaultKind::Unsupported(3);

/// A keyword, or a name.
#[tactic(auto, unfolding(crate::specs::Meaning::word_kind))]
fn word_kind(text: &[u8]) -> TokenKind
    ensures { result ≡ word_kind text.now }
{
    match keyword_number(text) {
        Some(number) => TokenKind::Word(number),
        None => TokenKind::Name,
    }
}

fn is_hexadecimal_text(text: &[u8]) -> bool
    ensures { result ≡ is_hexadecimal_text text.now }
{
    match text {
        [first, second, ..] => *first == b'0' && is_x(*second),
        _ => false,
    }
}

fn is_floating_byte(is_hexadecimal: bool, byte: u8) -> bool
    ensures { result ≡ is_floating_byte is_hexadecimal byte }
{
    if is_hexadecimal {
        matches!(byte, b'.' | b'p' | b'P')
    } else {
        matches!(byte, b'.' | b'e' | b'E')
    }
}

/// Whether a number has a period or the exponent of its base.
#[tactic(auto, unfolding(crate::specs::Meaning::is_floating))]
fn is_floating(text: &[u8]) -> bool
    ensures { result ≡ is_floating text.now }
{
    let is_hexadecimal = is_hexadecimal_text(text);
    text.iter().any(|b| is_floating_byte(is_hexadecimal, *b))
}

/// An integer constant, or why a number is none.
fn number_kind(text: &[u8]) -> Result<TokenKind, FaultKind>
    ensures { result ≡ number_kind text.now (constant text.now) }
{
    match constant(text) {
        Some((value, kind)) => Ok(TokenKind::Number { value, kind }),
        None => {
            if is_floating(text) {
                Err(FaultKind::Unsupported(1))
            } else {
                Err(FaultKind::Lex)
            }
        }
    }
}

/// The value of a byte as a signed `char`.
fn signed(byte: u8) -> i8
    ensures { result ≡ signed byte }
{
    if byte < 128 {
        byte as i8
    } else {
        (i16::from(byte) - 256) as i8
    }
}

/// The constant of one byte.
fn byte_constant(value: u8) -> TokenKind
    ensures { result ≡ TokenKind.Character (signed value) }
{
    TokenKind::Character(signed(value))
}

/// The meaning of a character constant, by what stands between its quotes, where no character there is wrong.
fn only_character(body: &[u8]) -> Result<TokenKind, FaultKind>
    ensures { result ≡ only_character (all_characters body.now) }
{
    if body.is_empty() {
        return Err(FaultKind::Lex);
    }
    let (character, len) = character_at(body);
    if len < body.len() {
        return Err(WIDE);
    }
    match character {
        Character::Byte(value) => Ok(byte_constant(value)),
        Character::Universal | Character::Wrong => Err(WIDE),
    }
}

fn character_meaning(body: &[u8]) -> Result<TokenKind, FaultKind>
    ensures { result ≡ character_meaning (all_characters body.now) }
{
    if flaws_in(body).has_wrong {
        Err(FaultKind::Lex)
    } else {
        only_character(body)
    }
}

fn text_meaning(body: &[u8]) -> Result<TokenKind, FaultKind>
    ensures { result ≡ text_meaning (all_characters body.now) }
{
    let flaws = flaws_in(body);
    if flaws.has_wrong {
        Err(FaultKind::Lex)
    } else if flaws.has_universal {
        Err(WIDE)
    } else {
        Ok(TokenKind::Text)
    }
}

/// A literal directly behind the name `L` is wide, unless it is no literal.
fn widened(is_wide: bool, meaning: Result<TokenKind, FaultKind>) -> Result<TokenKind, FaultKind>
    ensures { result ≡ widened is_wide meaning }
{
    if !is_wide || meaning == Err(FaultKind::Lex) {
        return meaning;
    }
    Err(WIDE)
}

/// What stands between the quotes.
fn unquoted(text: &[u8]) -> &[u8]
    ensures { result.now ≡ unquoted text.now }
{
    match text {
        [_, body @ .., _] => body,
        _ => &[],
    }
}

/// The kind of a token by its shape and its text, or the fault that refuses it.
#[tactic(auto, unfolding(crate::specs::computed::Values::meaning))]
pub(crate) fn meaning(is_wide: bool, shape: Shape, text: &[u8]) -> Result<TokenKind, FaultKind>
    ensures { result ≡ meaning is_wide shape text.now }
{
    match shape {
        Shape::Word => Ok(word_kind(text)),
        Shape::Number => number_kind(text),
        Shape::Character => widened(is_wide, character_meaning(unquoted(text))),
        Shape::Text => widened(is_wide, text_meaning(unquoted(text))),
        Shape::Mark(number) => Ok(TokenKind::Mark(number)),
    }
}
