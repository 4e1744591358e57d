ghost use Rattle.std.specs.Prelude.{◌≡◌, ◌≤◌, false, length, codes, ◌++◌, OnOk, IfOk, IfSome, MatchOption, Some, None};
ghost use Rattle.c_lexer.specs.computed.Settings.{spelled, name_in, opened, named, less_flag, only_flags, line_number, marker, line, behind_word, line_or_marker, setting_of};

use crate::bytes::{behind, digit_len, number_byte_len, word_len};
use crate::constant::value_of;
use crate::space::{no_space, only_space};
use sqlite_items::Items;
use std::alloc::{AllocError, Global};

/// What a directive does.
#[derive(Debug, Drop)]
pub(crate) enum Setting {
    /// Nothing.
    Pass,
    /// The next line has this number.
    Line(u32),
    /// The next line has this number, and the file this presumed name from there on.
    Named(u32, Items<u8>),
}

/// A name that stood in quotes, and what stands behind it.
#[derive(Drop)]
struct Quoted<'a> {
    name: Items<u8>,
    behind: &'a [u8],
}

/// A number that can be a line's, and what stands behind it.
#[derive(Clone, Copy)]
struct Numbered<'a> {
    number: u32,
    behind: &'a [u8],
}

/// The greatest number of a line (ISO/IEC 9899:1999, 6.10.4).
const MOST_LINES: u64 = 2_147_483_647;

/// Adds a byte of a name; behind a backslash it stands alone only where it is a quote or a backslash.
fn push_byte(name: &mut Items<u8>, escaped: bool, byte: u8) -> Result<(), AllocError>
    ensures { OnOk result (name.new ≡ name.old ++ spelled escaped byte) }
{
    if escaped && byte != b'"' && byte != b'\\' {
        name.push(b'\\')?;
    }
    name.push(byte)
}

/// The name behind an opening quote.
fn name_in(alloc: Global, text: &[u8]) -> Result<Option<Quoted<'_>>, AllocError>
    ensures { IfOk result (λ found. MatchOption found (name_in false text.now ≡ None) (λ q. name_in false text.now ≡ Some (q.name, q.behind.now))) }
{
    let mut name = Items::new(alloc);
    let mut escaped = false;
    for (i, b) in text.iter().enumerate() {
        if !escaped && *b == b'"' {
            let behind = behind(text, i + 1);
            return Ok(Some(Quoted { name, behind }));
        }
        if !escaped && *b == b'\\' {
            escaped = true;
        } else {
            push_byte(&mut name, escaped, *b)?;
            escaped = false;
        }
    }
    Ok(None)
}

/// A name in quotes behind white space.
#[tactic(auto, unfolding(crate::specs::computed::Settings::named))]
fn named(alloc: Global, text: &[u8]) -> Result<Option<Quoted<'_>>, AllocError>
    ensures { IfOk result (λ found. MatchOption found (named text.now ≡ None) (λ q. named text.now ≡ Some (q.name, q.behind.now))) }
{
    match no_space(text) {
        [b'"', inside @ ..] => name_in(alloc, inside),
        _ => Ok(None),
    }
}

/// What stands behind a flag, that is a number of digits alone, and white space before it.
fn less_flag(text: &[u8]) -> Option<&[u8]>
    ensures { MatchOption result (less_flag text.now ≡ None) (λ rest. less_flag text.now ≡ Some rest.now) }
{
    let at = no_space(text);
    let len = digit_len(at);
    if len == 0 || number_byte_len(at) != len {
        return None;
    }
    Some(behind(at, len))
}

/// Whether the rest of the line is flags.
fn only_flags(text: &[u8]) -> bool
    ensures { result ≡ only_flags (length text.now) text.now }
{
    let mut rest = text;
    for _turn in 0..text.len() {
        if only_space(rest) {
            return true;
        }
        match less_flag(rest) {
            Some(less) => {
                rest = less;
            }
            None => {
                return false;
            }
        }
    }
    only_space(rest)
}

/// The number of a line.
fn line_number(at: &[u8]) -> Option<Numbered<'_>>
    ensures value { MatchOption result (line_number at.now ≡ None) (λ n. line_number at.now ≡ Some (n.number, n.behind.now)) }
    ensures high { IfSome result (λ n. n.number ≤ 2147483647) }
{
    let len = digit_len(at);
    if len == 0 {
        return None;
    }
    let (digits, behind) = at.split_at(len);
    match value_of(10, digits) {
        Some(value) if value <= MOST_LINES => Some(Numbered {
            number: value as u32,
            behind,
        }),
        _ => None,
    }
}

/// A line marker of GCC: a number, a name and flags.
fn marker(alloc: Global, at: &[u8]) -> Result<Option<Setting>, AllocError>
    ensures { IfOk result (λ found. found ≡ marker at.now) }
{
    let Some(line) = line_number(at) else {
        return Ok(None);
    };
    let Some(quoted) = named(alloc, line.behind)? else {
        return Ok(None);
    };
    if only_flags(quoted.behind) {
        Ok(Some(Setting::Named(line.number, quoted.name)))
    } else {
        Ok(None)
    }
}

/// What stands behind `#line`: a number, and perhaps a name.
fn line(alloc: Global, word: &[u8]) -> Result<Option<Setting>, AllocError>
    ensures { IfOk result (λ found. found ≡ line word.now) }
{
    let Some(line) = line_number(no_space(word)) else {
        return Ok(None);
    };
    if only_space(line.behind) {
        return Ok(Some(Setting::Line(line.number)));
    }
    let Some(quoted) = named(alloc, line.behind)? else {
        return Ok(None);
    };
    if only_space(quoted.behind) {
        Ok(Some(Setting::Named(line.number, quoted.name)))
    } else {
        Ok(None)
    }
}

/// What stands behind the word, where it stands at the front.
fn behind_word<'a>(word: &[u8], text: &'a [u8]) -> Option<&'a [u8]>
    ensures { MatchOption result (behind_word word.now text.now ≡ None) (λ rest. behind_word word.now text.now ≡ Some rest.now) }
{
    let (front, behind) = text.split_at(word_len(text));
    if front == word { Some(behind) } else { None }
}

fn line_or_marker(alloc: Global, at: &[u8]) -> Result<Option<Setting>, AllocError>
    ensures { IfOk result (λ found. found ≡ line_or_marker at.now (behind_word (codes "line") at.now)) }
{
    match behind_word(b"line", at) {
        Some(word) => line(alloc, word),
        None => marker(alloc, at),
    }
}

/// What a directive sets, by what is left of its line behind the `#`.
#[tactic(auto, unfolding(crate::specs::computed::Settings::setting_of))]
pub(crate) fn setting_of(alloc: Global, text: &[u8]) -> Result<Option<Setting>, AllocError>
    ensures { IfOk result (λ found. found ≡ setting_of text.now) }
{
    if only_space(text) {
        return Ok(Some(Setting::Pass));
    }
    let at = no_space(text);
    match behind_word(b"pragma", at) {
        Some(_) => Ok(Some(Setting::Pass)),
        None => line_or_marker(alloc, at),
    }
}
