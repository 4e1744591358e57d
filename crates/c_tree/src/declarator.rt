use crate::expression::Expr;
use crate::specifier::SpecWord;
use sqlite_items::{Boxed, Items};
use sv_base::Place;

/// A declarator (ISO/IEC 9899:1999, 6.7.5) or an abstract one (6.7.6). It stands at the name in it, or at its first token
/// where it has none.
#[cycle(syntax)]
#[derive(Drop)]
pub struct Declarator {
    /// For each `*` its qualifiers, by their numbers in the table of keywords.
    pub pointers: Items<Items<u8>>,
    pub core: DeclCore,
    pub parts: Items<DeclPart>,
    pub place: Place,
    /// The offset of the token at the place.
    pub start: u32,
}

/// What stands between the pointers and the parts.
#[cycle(syntax)]
#[derive(Drop)]
pub enum DeclCore {
    /// A number in the tree's list of names.
    Name(u32),
    Nested(Boxed<Declarator>),
    Absent,
}

/// An array's brackets, or a parameter list, at its opening mark.
#[cycle(syntax)]
#[derive(Drop)]
pub enum DeclPart {
    Array {
        size: Option<Expr>,
        place: Place,
        start: u32,
    },
    Params {
        list: Items<Param>,
        dots: Option<Dots>,
        place: Place,
        start: u32,
    },
}

/// Where the `...` of a parameter list stands.
#[derive(Clone, Copy, Debug, PartialEq, Eq)]
pub struct Dots {
    pub place: Place,
    pub start: u32,
}

/// A parameter (6.7.5).
#[cycle(syntax)]
#[derive(Drop)]
pub struct Param {
    pub head: Items<SpecWord>,
    pub declarator: Option<Declarator>,
}

/// A type name (6.7.6).
#[cycle(syntax)]
#[derive(Drop)]
pub struct TypeName {
    pub head: Items<SpecWord>,
    pub declarator: Option<Declarator>,
}
