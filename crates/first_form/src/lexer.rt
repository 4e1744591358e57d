ghost use Rattle.std.specs.Prelude.{◌≡◌, ◌^◌, ◌≤◌, length, All, IfOk};
ghost use Rattle.first_form.specs.Pieces.{IsInFile, pieces};
ghost use Rattle.first_form.specs.computed.Scan.{pieces_from};
ghost use Rattle.first_form.specs.computed.Reading.{Gives};

use crate::bytes::piece_len;
use crate::refusal::Refusal;
use crate::token::Token;
use std::alloc::Global;

/// The tokens of a file.
pub(crate) fn lex(alloc: Global, bytes: &[u8]) -> Result<Vec<Token>, Refusal>
    requires { length bytes.now ≤ 2 ^ 24 }
    ensures value { Gives (λ v. pieces bytes.now v.items) result (pieces_from 0 1 1 bytes.now) }
    ensures within { IfOk result (λ v. All (IsInFile bytes.now) v.items) }
{
    let mut tokens = Vec::new(alloc);
    let mut at = 0;
    let mut line = 1u32;
    let mut col = 1u32;
    while at < bytes.len() {
        let first = bytes[at];
        if first == b'\n' {
            line += 1;
            col = 1;
            at += 1;
        } else if first == b' ' {
            col += 1;
            at += 1;
        } else {
            let Some(len) = piece_len(&bytes[at..]) else {
                return Err(Refusal::NotOfForm);
            };
            tokens.push(Token {
                start: at as u32,
                end: (at + len) as u32,
                line,
                col,
            })?;
            at += len;
            col += len as u32;
        }
    }
    Ok(tokens)
}
