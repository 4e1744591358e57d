use crate::expression::Expr;
use sqlite_items::Items;
use sv_base::Place;

/// An initialiser (ISO/IEC 9899:1999, 6.7.8).
#[cycle(initialisers)]
#[derive(Drop)]
pub enum Initialiser {
    One(Expr),
    /// A list in braces, at its opening mark.
    List {
        entries: Items<InitEntry>,
        place: Place,
        start: u32,
    },
}

/// An entry of a list, with its designators.
#[cycle(initialisers)]
#[derive(Drop)]
pub struct InitEntry {
    pub path: Items<Designator>,
    pub value: Initialiser,
}

/// A designator (6.7.8).
#[derive(Drop)]
pub enum Designator {
    Index(Expr),
    /// A member, at its name, which is a number in the tree's list of names.
    Member { name: u32, place: Place, start: u32 },
}
