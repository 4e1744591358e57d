use crate::external::file;
use crate::refused::refused;
use c_cursor::Cursor;
use c_lexemes::{Lexemes, lexemes_of};
use c_syntax::Tokens;
use c_tree::{HeldItems, Lexeme, Tree};
use std::alloc::Global;
use sv_base::{FileId, FrontFault};

/// The external declarations of a file with these tokens.
fn items(alloc: Global, own: FileId, tokens: &[Lexeme]) -> Result<HeldItems, FrontFault> {
    let mut cursor = match Cursor::new(alloc, tokens) {
        Ok(cursor) => cursor,
        Err(_) => return Err(FrontFault::NoMemory),
    };
    match file(alloc, &mut cursor) {
        Ok(items) => match cursor.past_limit() {
            Some(fault) => Err(FrontFault::Fault(fault)),
            None => Ok(items),
        },
        Err(error) => Err(refused(own, error, &cursor)),
    }
}

/// The syntax tree of a file by its tokens (ISO/IEC 9899:1999, 6.5 to 6.9) and its bytes. A file is refused at the first token with
/// which no file goes on: as a fault of syntax, or by the code of the construct that the token shows, where the profile leaves one
/// out; or at an earlier token that makes nodes nest deeper than 256, or loops deeper than 12.
pub fn parse(alloc: Global, tokens: &Tokens, bytes: &[u8]) -> Result<Tree, FrontFault> {
    let Lexemes { list, names } = lexemes_of(alloc, tokens, bytes)?;
    let items = items(alloc, tokens.file, list.as_slice())?;
    Ok(Tree {
        file: tokens.file,
        names,
        items: items.into_inner(),
    })
}
