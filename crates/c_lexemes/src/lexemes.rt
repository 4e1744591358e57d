use crate::extension::is_extension;
use crate::texts::text_bytes;
use c_syntax::{Token, TokenKind, Tokens};
use c_tree::{Lexeme, LexemeKind};
use indexmap::IndexSet;
use sqlite_items::Items;
use std::alloc::{AllocError, Global};

/// The tokens of a file as the grammar sees them, and its distinct names in the order in which they are first seen.
#[derive(Drop)]
pub struct Lexemes {
    pub list: Items<Lexeme>,
    pub names: Items<Items<u8>>,
}

/// The names that were seen so far, in the order of their numbers.
#[derive(Drop)]
struct Seen {
    set: IndexSet<Vec<u8>>,
}

impl Seen {
    /// The number of a name, which is the next one where the name is new. A number that does not fit counts as want of memory.
    fn number_of(&mut self, alloc: Global, text: &[u8]) -> Result<u32, AllocError> {
        let place = match self.set.get_index_of(text) {
            Some(place) => place,
            None => {
                let place = self.set.len();
                let name = Vec::from_slice(alloc, text)?;
                self.set.insert(name)?;
                place
            }
        };
        u32::try_from(place).map_err(|_| AllocError)
    }

    /// The names, each as its bytes.
    fn names(&self, alloc: Global) -> Result<Items<Items<u8>>, AllocError> {
        let mut names = Items::new(alloc);
        for name in self.set.as_slice() {
            names.push(Items::from_slice(alloc, name.as_slice())?)?;
        }
        Ok(names)
    }
}

/// The text of a token, and none where the file has no such bytes.
fn text_of<'a>(token: &Token, bytes: &'a [u8]) -> &'a [u8] {
    let start = token.start as usize;
    let end = token.end as usize;
    if start <= end && end <= bytes.len() {
        &bytes[start..end]
    } else {
        &[]
    }
}

/// What a token is, where it is no name and no text.
fn kind_of(
    alloc: Global,
    token: &Token,
    bytes: &[u8],
    seen: &mut Seen,
) -> Result<LexemeKind, AllocError> {
    match token.kind {
        TokenKind::Word(number) => Ok(LexemeKind::Word(number)),
        TokenKind::Name => name_kind(alloc, text_of(token, bytes), seen),
        TokenKind::Number { kind, value } => Ok(LexemeKind::Number(value, kind)),
        TokenKind::Character(value) => Ok(LexemeKind::Character(value)),
        TokenKind::Text => Ok(LexemeKind::Text(text_bytes(alloc, text_of(token, bytes))?)),
        TokenKind::Mark(number) => Ok(LexemeKind::Mark(number)),
        TokenKind::End => Ok(LexemeKind::End),
    }
}

/// A name, or a word that GNU C reserves.
fn name_kind(alloc: Global, text: &[u8], seen: &mut Seen) -> Result<LexemeKind, AllocError> {
    if is_extension(text) {
        return Ok(LexemeKind::Extension);
    }
    Ok(LexemeKind::Name(seen.number_of(alloc, text)?))
}

/// The tokens of a file with these bytes, as the grammar sees them.
pub fn lexemes_of(alloc: Global, tokens: &Tokens, bytes: &[u8]) -> Result<Lexemes, AllocError> {
    let mut seen = Seen {
        set: IndexSet::new(alloc),
    };
    let mut list = Items::new(alloc);
    for token in tokens.list.as_slice() {
        list.push(Lexeme {
            kind: kind_of(alloc, token, bytes, &mut seen)?,
            place: token.place,
            start: token.start,
        })?;
    }
    let names = seen.names(alloc)?;
    Ok(Lexemes { list, names })
}
