use c_tree::RecordKind;
use c_typed::TypeId;

/// What a name means where it is looked up (ISO/IEC 9899:1999, 6.2.3).
#[derive(Clone, Copy, Debug, PartialEq, Eq)]
pub enum Meaning {
    Typedef(TypeId),
    /// An enumeration constant with its value.
    Constant(i128),
    /// An object without linkage, by its number in the function.
    Object {
        number: u32,
        of: TypeId,
    },
    /// A name with linkage, by the number of its first declaration in the file.
    Linked {
        number: u32,
        of: TypeId,
        is_function: bool,
    },
}

/// What a tag means (6.7.2.3).
#[derive(Clone, Copy, Debug, PartialEq, Eq)]
pub enum Tag {
    Record {
        kind: RecordKind,
        of: TypeId,
        /// Whether a declaration of its content has begun.
        begun: bool,
    },
    Enumeration {
        /// Whether its constants are declared.
        begun: bool,
    },
}
