use c_values::IntType;
use sqlite_items::Items;
use sv_base::Place;

/// What a token is to the grammar. A name is its number in the list of the file's distinct names, in the order in which
/// they are first seen.
#[derive(Drop)]
pub enum LexemeKind {
    /// A keyword (ISO/IEC 9899:1999, 6.4.1), by its number in the table of keywords.
    Word(u8),
    /// An identifier (6.4.2).
    Name(u32),
    /// A word that GNU C reserves, and that serves as no identifier here.
    Extension,
    /// An integer constant with its type (6.4.4.1).
    Number(u64, IntType),
    /// A character constant (6.4.4.4) with the value of its byte as a signed `char`.
    Character(i8),
    /// A string literal (6.4.5): its bytes, with each escape read, and without the zero at its end.
    Text(Items<u8>),
    /// A punctuator (6.4.6), by its number in the table of punctuators.
    Mark(u8),
    /// The end of the file.
    End,
}

/// A token as the grammar sees it.
#[derive(Drop)]
pub struct Lexeme {
    pub kind: LexemeKind,
    /// Its presumed place (6.10.4).
    pub place: Place,
    /// The offset of its first byte in the file, which orders the tokens of one file.
    pub start: u32,
}
