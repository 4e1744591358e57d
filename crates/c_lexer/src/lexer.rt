ghost use Rattle.std.specs.Prelude.{◌≡◌, ◌≤◌, ◌<◌, ◌++◌, ◌∷◌, [], ℕ, length, slice_get, IfOk, IfErr, OnOk, OnErr, IsErrOf};
ghost use Rattle.sv_base.specs.declared.fault.SourceFault.{SourceFault as Refusal};
ghost use Rattle.c_lexer.specs.Spots.{IsWithin, token_at};
ghost use Rattle.c_lexer.specs.Cuts.{Outcome.Done, Outcome.Refused, IsLexed};
ghost use Rattle.c_lexer.specs.computed.Scan.{run, with_option, Ends, Extends};

use crate::spot::Spot;
use crate::step::turn;
use c_syntax::{Token, TokenKind, Tokens};
use sqlite_items::Items;
use std::alloc::{AllocError, Global};
use sv_base::{FaultKind, FileId, FrontFault, Names, Place, SourceFault, limits};

fn push_some(list: &mut Items<Token>, token: Option<Token>) -> Result<(), AllocError>
    ensures { OnOk result (list.new ≡ with_option list.old token) }
{
    match token {
        Some(token) => list.push(token),
        None => Ok(()),
    }
}

/// The tokens with the end behind them.
fn ended(mut list: Items<Token>, spot: Spot) -> Result<Items<Token>, AllocError>
    requires { IsWithin spot 0 }
    ensures { IfOk result (λ all. all ≡ list ++ token_at spot TokenKind.End 0 ∷ []) }
{
    list.push(spot.token(TokenKind::End, 0))?;
    Ok(list)
}

/// The tokens of a text that begins at the spot.
fn tokens_from(
    alloc: Global,
    names: &mut Names,
    start: Spot,
    bytes: &[u8],
) -> Result<Items<Token>, FrontFault>
    requires { IsWithin start (length bytes.now) }
    ensures gives { IfOk result (λ list. run (length bytes.now) names.old start bytes.now ≡ Done list names.new) }
    ensures refuses { IfErr result (λ e. Ends e (run (length bytes.now) names.old start bytes.now) names.new) }
    ensures kept { Extends names.old names.new }
{
    let mut list = Items::new(alloc);
    let mut spot = start;
    let mut rest = bytes;
    for _turn in 0..bytes.len() {
        if rest.is_empty() {
            return match ended(list, spot) {
                Ok(all) => Ok(all),
                Err(_) => Err(FrontFault::NoMemory),
            };
        }
        let piece = match turn(alloc, names, spot, rest) {
            Ok(piece) => piece,
            Err(refusal) => return Err(refusal),
        };
        match push_some(&mut list, piece.token) {
            Ok(()) => {
                spot = piece.spot;
                rest = piece.rest;
            }
            Err(_) => return Err(FrontFault::NoMemory),
        }
    }
    match ended(list, spot) {
        Ok(all) => Ok(all),
        Err(_) => Err(FrontFault::NoMemory),
    }
}

/// The tokens of a preprocessed file, cut as ISO/IEC 9899:1999, 6.4, says, or the first fault in it. `name` is the
/// number of the file's own name, and `room` the number of tokens that are left to this file; its `End` takes none.
/// `names` gets the names that the file's directives set, up to the fault where there is one.
pub fn lex(
    alloc: Global,
    bytes: &[u8],
    name: FileId,
    names: &mut Names,
    room: u32,
) -> Result<Tokens, FrontFault>
    ensures file { IfOk result (λ tokens. tokens.file ≡ name) }

    // The text is these tokens, with white space, comments and directives between them.
    ensures tokens { IfOk result (λ tokens. IsLexed bytes.now name room names.old (Done tokens.list names.new)) }

    // Its first fault is this one.
    ensures fault { (fault : Refusal) → IsErrOf result (FrontFault.Fault fault) → IsLexed bytes.now name room names.old (Refused fault names.new) }

    // The names that stood before stand, with their numbers, also after a refusal.
    ensures kept { (k : ℕ) → k < length names.old → slice_get names.new k ≡ slice_get names.old k }
{
    if bytes.len() > limits::FILE_BYTES {
        return Err(FrontFault::Fault(SourceFault {
            kind: FaultKind::Limit(1),
            place: Place::of_file(name),
        }));
    }
    match tokens_from(alloc, names, Spot::at_start(name, room), bytes) {
        Ok(list) => Ok(Tokens { file: name, list }),
        Err(refusal) => Err(refusal),
    }
}
