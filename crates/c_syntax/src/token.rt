use c_values::IntType;
use sqlite_items::Items;
use sv_base::{FileId, Place};

/// What a token is (ISO/IEC 9899:1999, 6.4). The bytes of a name or a text are those of the file from the token's
/// start to its end.
#[derive(Clone, Copy, Debug, PartialEq, Eq)]
pub enum TokenKind {
    /// A keyword (6.4.1), by its number in the table of keywords.
    Word(u8),
    /// An identifier (6.4.2).
    Name,
    /// An integer constant with its type (6.4.4.1), which stands first so that a token takes 40 bytes.
    Number { kind: IntType, value: u64 },
    /// A character constant (6.4.4.4) with the value of its byte as a signed `char`.
    Character(i8),
    /// A string literal (6.4.5).
    Text,
    /// A punctuator (6.4.6), by its number in the table of punctuators. A digraph has the number of its mark.
    Mark(u8),
    /// The end of the file.
    End,
}

/// A token and where it stands.
#[derive(Clone, Copy, Debug, PartialEq, Eq)]
pub struct Token {
    pub kind: TokenKind,
    /// The presumed name and line (6.10.4) of its first byte, and the byte's number in its line, from 1.
    pub place: Place,
    /// The offset of its first byte in the file, which orders the tokens of one file.
    pub start: u32,
    /// The offset just past its last byte.
    pub end: u32,
}

/// The tokens of a file in their order, the last of them `End`.
#[derive(Debug, Drop)]
pub struct Tokens {
    /// The number of the file's own name.
    pub file: FileId,
    pub list: Items<Token>,
}
