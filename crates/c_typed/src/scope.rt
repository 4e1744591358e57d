use crate::table::{TypeId, TypeTable};
use sv_base::Place;

/// What a function's body sees (ISO/IEC 9899:1999, 6.2.1).
#[derive(Drop)]
pub struct Scope {
    /// The names of the tree, by which names and tags are numbered.
    pub names: Vec<Vec<u8>>,
    pub types: TypeTable,
    /// The names of the file that are visible, in the order of their declarations.
    pub entries: Vec<ScopeEntry>,
    pub tags: Vec<ScopeTag>,
    pub params: Vec<ParamEntry>,
    /// The enumeration constants that the parameter list declares. They have the body's scope.
    pub param_entries: Vec<ScopeEntry>,
    /// The tags that the parameter list declares. They have the body's scope.
    pub param_tags: Vec<ScopeTag>,
}

/// A declared name.
#[derive(Clone, Copy, Debug, PartialEq, Eq)]
pub struct ScopeEntry {
    pub name: u32,
    pub seen: Seen,
}

/// What a name is declared as.
#[derive(Clone, Copy, Debug, PartialEq, Eq)]
pub enum Seen {
    Typedef(TypeId),
    /// An enumeration constant with its value, an `int`.
    Constant(i128),
    /// A name with linkage (6.2.2), by its number among those of the file.
    Linked { number: u32, of: TypeId },
}

/// A declared tag. That of an enumeration has the type `int`.
#[derive(Clone, Copy, Debug, PartialEq, Eq)]
pub struct ScopeTag {
    pub name: u32,
    pub of: TypeId,
}

/// A parameter of a function definition (6.9.1).
#[derive(Clone, Copy, Debug, PartialEq, Eq)]
pub struct ParamEntry {
    pub name: u32,
    pub place: Place,
    pub start: u32,
    pub of: TypeId,
}
