//! Why a file is refused.

use c_cursor::{Cursor, ReadError};
use c_syntax::words;
use c_tree::{Lexeme, LexemeKind};
use sv_base::{FaultKind, FileId, FrontFault, Place, SourceFault, faults};

/// What a token shows wherever it stands, if nothing goes on with it.
fn shown_by(token: &Lexeme) -> Option<FaultKind> {
    match &token.kind {
        LexemeKind::Word(words::FLOAT | words::DOUBLE) => Some(faults::FLOATING),
        LexemeKind::Word(words::COMPLEX | words::IMAGINARY) => Some(faults::COMPLEX),
        LexemeKind::Word(words::GOTO) => Some(faults::GOTO),
        LexemeKind::Extension => Some(faults::GNU_WORD),
        _ => None,
    }
}

/// The fault at the next token, with which nothing goes on.
fn fault_at(token: &Lexeme, cursor: &Cursor<'_>) -> SourceFault {
    let kind = match shown_by(token) {
        Some(kind) => kind,
        None => cursor.shown().unwrap_or(FaultKind::Syntax),
    };
    SourceFault {
        kind,
        place: token.place,
    }
}

/// Why the tokens of a file are refused: by a limit at the first token that passed one, and otherwise at the token where the
/// reading stopped. A list without tokens, which no lexer gives, is refused at the place 0:0.
pub(crate) fn refused(file: FileId, error: ReadError, cursor: &Cursor<'_>) -> FrontFault {
    if error == ReadError::NoMemory {
        return FrontFault::NoMemory;
    }
    if let Some(fault) = cursor.past_limit() {
        return FrontFault::Fault(fault);
    }
    match cursor.peek() {
        Some(token) => FrontFault::Fault(fault_at(token, cursor)),
        None => FrontFault::Fault(SourceFault {
            kind: FaultKind::Syntax,
            place: Place {
                file,
                line: 0,
                col: 0,
            },
        }),
    }
}
