use crate::declarator::Declarator;
use crate::expression::Expr;
use sqlite_items::Items;
use sv_base::Place;

/// A word of a list of declaration specifiers (ISO/IEC 9899:1999, 6.7), at its first token.
#[cycle(syntax)]
#[derive(Drop)]
pub struct SpecWord {
    pub kind: SpecKind,
    pub place: Place,
    /// The offset of the token at the place.
    pub start: u32,
}

#[cycle(syntax)]
#[derive(Drop)]
pub enum SpecKind {
    /// A keyword, by its number in the table of keywords.
    Plain(u8),
    /// A typedef name (6.7.7), by its number in the tree's list of names.
    Typedef(u32),
    /// A structure or union (6.7.2.1). A tag is a number in the tree's list of names.
    Record {
        kind: RecordKind,
        tag: Option<u32>,
        members: Option<Items<MemberDecl>>,
    },
    /// An enumeration (6.7.2.2).
    Enum {
        tag: Option<u32>,
        items: Option<Items<EnumItem>>,
    },
}

#[derive(Clone, Copy, Debug, PartialEq, Eq)]
pub enum RecordKind {
    Struct,
    Union,
}

/// Members that are declared together (6.7.2.1).
#[cycle(syntax)]
#[derive(Drop)]
pub struct MemberDecl {
    pub head: Items<SpecWord>,
    pub parts: Items<Declarator>,
}

/// An enumerator (6.7.2.2), at its name.
#[cycle(syntax)]
#[derive(Drop)]
pub struct EnumItem {
    /// A number in the tree's list of names.
    pub name: u32,
    pub place: Place,
    /// The offset of the name.
    pub start: u32,
    pub value: Option<Expr>,
}
