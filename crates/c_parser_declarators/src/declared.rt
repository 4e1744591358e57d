use c_tree::{Dots, HeldCore, HeldDeclarator, HeldParams, HeldParts, Lexeme};
use sv_base::Place;

/// Where a token stands.
#[derive(Clone, Copy, Debug, PartialEq, Eq)]
pub struct Spot {
    pub place: Place,
    /// The offset of its first byte in the file.
    pub start: u32,
}

impl Spot {
    // Where this token stands.
    pub(crate) fn of(token: &Lexeme) -> Spot {
        Spot {
            place: token.place,
            start: token.start,
        }
    }
}

/// A declarator, and where the name in it stands, if it has one.
#[derive(Drop)]
pub struct Declared {
    pub tree: HeldDeclarator,
    pub name: Option<Spot>,
}

/// A declarator without its pointers.
#[derive(Drop)]
pub(crate) struct Direct {
    pub(crate) core: HeldCore,
    pub(crate) parts: HeldParts,
    pub(crate) name: Option<Spot>,
}

/// A parameter list.
#[derive(Drop)]
pub(crate) struct Parameters {
    pub(crate) list: HeldParams,
    pub(crate) dots: Option<Dots>,
}
