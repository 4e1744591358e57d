ghost use Rattle.std.specs.Prelude.{◌≡◌, ◌+◌, ◌≤◌, ◌<◌, ◌↔◌, true, length, take, slice_index, Some, Ok, MatchResult, OnOk, OnErr, IfOk, IfErr};
ghost use Rattle.c_lexer.specs.Spots.{IsWithin};
ghost use Rattle.sv_base.specs.Names.{with_name, number_in};
ghost use Rattle.c_lexer.specs.Bytes.{in_line};
ghost use Rattle.c_lexer.specs.Cuts.{fault_at, behind_newline, file_of};
ghost use Rattle.c_lexer.specs.computed.Scan.{Refuses, step, with_names, block_comment, line_comment, counted, token, plain, is_full, set, directive, begins_directive, turn};

use crate::bytes::{behind, is_blank, line_len};
use crate::directive::{Setting, setting_of};
use crate::meaning::meaning;
use crate::shape::shape_at;
use crate::space::{close_len, opens_block, opens_line};
use crate::spot::Spot;
use c_syntax::{Token, TokenKind};
use std::alloc::Global;
use sv_base::{FaultKind, FileId, FrontFault, Names, NamesFull, SourceFault, limits};

/// Behind a piece of the text: where it ends, the token that it is, and what is left.
#[derive(Clone, Copy)]
pub(crate) struct Piece<'a> {
    pub(crate) spot: Spot,
    pub(crate) token: Option<Token>,
    pub(crate) rest: &'a [u8],
}

/// A fault at the spot.
fn fault(kind: FaultKind, spot: Spot) -> SourceFault
    ensures { result ≡ fault_at spot kind }
{
    SourceFault {
        kind,
        place: spot.place(),
    }
}

/// A comment of the kind `/*`, whose two bytes stand at the front.
#[tactic(auto, unfolding(crate::specs::computed::Scan::block_comment))]
fn block_comment<'a>(spot: Spot, text: &'a [u8]) -> Result<Piece<'a>, FaultKind>
    requires within { IsWithin spot (length text.now) }
    requires opens { 2 ≤ length text.now }
    ensures { MatchResult result (λ p. block_comment spot text.now ≡ Ok (step p.spot p.token p.rest.now)) (λ e. block_comment spot text.now ≡ Err e) }
{
    match close_len(behind(text, 2)) {
        Some(len) => {
            let (comment, rest) = text.split_at(len + 2);
            Ok(Piece {
                spot: spot.past(comment),
                token: None,
                rest,
            })
        }
        None => Err(FaultKind::Lex),
    }
}

/// A comment of the kind `//`.
#[tactic(auto, unfolding(crate::specs::computed::Scan::line_comment))]
fn line_comment<'a>(spot: Spot, text: &'a [u8]) -> Piece<'a>
    requires within { IsWithin spot (length text.now) }
    ensures { line_comment spot text.now ≡ step result.spot result.token result.rest.now }
{
    let (comment, rest) = text.split_at(line_len(text));
    Piece {
        spot: spot.past(comment),
        token: None,
        rest,
    }
}

/// A text without the newline at its front.
fn behind_newline(text: &[u8]) -> &[u8]
    ensures { result.now ≡ behind_newline text.now }
{
    match text {
        [_, behind @ ..] => behind,
        [] => text,
    }
}

/// The number of a presumed name, which is a new one perhaps.
fn number_of(alloc: Global, names: &mut Names, name: &[u8]) -> Result<FileId, NamesFull>
    ensures number { IfOk result (λ id. id ≡ file_of (number_in names.old name.now)) }
    ensures names { OnOk result (names.new ≡ with_name names.old name.now) }
    ensures full { (result ≡ Err NamesFull.Full) ↔ (is_full names.old name.now ≡ true) }
    ensures err { OnErr result (names.new ≡ names.old) }
{
    names.number_of(alloc, name)
}

/// What a directive leaves, by what it sets.
fn set<'a>(
    alloc: Global,
    names: &mut Names,
    spot: Spot,
    line: &'a [u8],
    rest: &'a [u8],
    setting: Option<Setting>,
) -> Result<Piece<'a>, FrontFault>
    requires within { IsWithin spot (length line.now + length rest.now) }
    ensures gives { IfOk result (λ p. set names.old spot line.now rest.now setting ≡ Ok (with_names names.new (step p.spot p.token p.rest.now))) }
    ensures refuses { IfErr result (λ e. Refuses spot e (set names.old spot line.now rest.now setting)) }
    ensures kept { OnErr result (names.new ≡ names.old) }
{
    match setting {
        None => Err(FrontFault::Fault(fault(FaultKind::Lex, spot))),
        Some(Setting::Pass) => Ok(Piece {
            spot: spot.past(line),
            token: None,
            rest,
        }),
        Some(Setting::Line(number)) => Ok(Piece {
            spot: spot.past_directive(spot.file, number, line, rest),
            token: None,
            rest: behind_newline(rest),
        }),
        Some(Setting::Named(number, name)) => match number_of(alloc, names, name.as_slice()) {
            Ok(file) => Ok(Piece {
                spot: spot.past_directive(file, number, line, rest),
                token: None,
                rest: behind_newline(rest),
            }),
            Err(NamesFull::Full) => Err(FrontFault::Fault(fault(FaultKind::Limit(13), spot))),
            Err(NamesFull::NoMemory) => Err(FrontFault::NoMemory),
        },
    }
}

/// A line that begins with `#`.
#[tactic(auto, unfolding(crate::specs::computed::Scan::directive))]
fn directive<'a>(
    alloc: Global,
    names: &mut Names,
    spot: Spot,
    text: &'a [u8],
) -> Result<Piece<'a>, FrontFault>
    requires within { IsWithin spot (length text.now) }
    requires some { 0 < length text.now }
    requires begins { in_line (slice_index text.now 0) ≡ true }
    ensures gives { IfOk result (λ p. directive names.old spot text.now ≡ Ok (with_names names.new (step p.spot p.token p.rest.now))) }
    ensures refuses { IfErr result (λ e. Refuses spot e (directive names.old spot text.now)) }
    ensures kept { OnErr result (names.new ≡ names.old) }
{
    let (line, rest) = text.split_at(line_len(text));
    let setting = setting_of(alloc, &line[1..])?;
    set(alloc, names, spot, line, rest, setting)
}

/// A token of a shape and a length.
fn counted<'a>(
    spot: Spot,
    text: &'a [u8],
    len: usize,
    kind: TokenKind,
) -> Result<Piece<'a>, FaultKind>
    requires within { IsWithin spot (length text.now) }
    requires len { len ≤ length text.now }
    ensures { MatchResult result (λ p. counted spot text.now len kind ≡ Ok (step p.spot p.token p.rest.now)) (λ e. counted spot text.now len kind ≡ Err e) }
{
    if spot.room == 0 {
        return Err(FaultKind::Limit(3));
    }
    if len > limits::TOKEN_BYTES {
        return Err(FaultKind::Limit(12));
    }
    let (word, rest) = text.split_at(len);
    Ok(Piece {
        spot: spot.past_token(word),
        token: Some(spot.token(kind, len)),
        rest,
    })
}

/// A token.
#[tactic(auto, unfolding(crate::specs::computed::Scan::token))]
fn token<'a>(spot: Spot, text: &'a [u8]) -> Result<Piece<'a>, FaultKind>
    requires within { IsWithin spot (length text.now) }
    ensures { MatchResult result (λ p. token spot text.now ≡ Ok (step p.spot p.token p.rest.now)) (λ e. token spot text.now ≡ Err e) }
{
    let Some((shape, len)) = shape_at(text) else {
        return Err(FaultKind::Lex);
    };
    match meaning(spot.is_wide, shape, &text[..len]) {
        Ok(kind) => counted(spot, text, len, kind),
        Err(kind) => Err(kind),
    }
}

/// A piece that is no directive.
#[tactic(auto, unfolding(crate::specs::computed::Scan::plain))]
fn plain<'a>(spot: Spot, text: &'a [u8]) -> Result<Piece<'a>, FaultKind>
    requires within { IsWithin spot (length text.now) }
    ensures { MatchResult result (λ p. plain spot text.now ≡ Ok (step p.spot p.token p.rest.now)) (λ e. plain spot text.now ≡ Err e) }
{
    let [first, rest @ ..] = text else {
        return Err(FaultKind::Lex);
    };
    if *first == b'\n' || is_blank(*first) {
        return Ok(Piece {
            spot: spot.past_byte(*first),
            token: None,
            rest,
        });
    }
    if opens_block(text) {
        return block_comment(spot, text);
    }
    if opens_line(text) {
        return Ok(line_comment(spot, text));
    }
    token(spot, text)
}

fn begins_directive(spot: Spot, text: &[u8]) -> bool
    ensures value { result ≡ begins_directive spot text.now }
    ensures some { result ≡ true → 0 < length text.now }
    ensures begins { result ≡ true → in_line (slice_index text.now 0) ≡ true }
{
    match text {
        [first, ..] => spot.is_first && *first == b'#',
        [] => false,
    }
}

/// One piece of a text that is not empty.
#[tactic(auto, unfolding(crate::specs::computed::Scan::turn))]
pub(crate) fn turn<'a>(
    alloc: Global,
    names: &mut Names,
    spot: Spot,
    text: &'a [u8],
) -> Result<Piece<'a>, FrontFault>
    requires within { IsWithin spot (length text.now) }
    ensures gives { IfOk result (λ p. turn names.old spot text.now ≡ Ok (with_names names.new (step p.spot p.token p.rest.now))) }
    ensures refuses { IfErr result (λ e. Refuses spot e (turn names.old spot text.now)) }
    ensures kept { OnErr result (names.new ≡ names.old) }
{
    if begins_directive(spot, text) {
        return directive(alloc, names, spot, text);
    }
    match plain(spot, text) {
        Ok(piece) => Ok(piece),
        Err(kind) => Err(FrontFault::Fault(fault(kind, spot))),
    }
}
