use c_tree::RecordKind;
use c_values::IntType;

/// The number of a type: its row in the table of types.
#[derive(Clone, Copy, Debug, PartialEq, Eq)]
pub struct TypeId(pub u32);

/// The types of a program (ISO/IEC 9899:1999, 6.2.5). A row names rows before its own alone; what a record has inside
/// stands with the record.
#[derive(Drop)]
pub struct TypeTable {
    pub rows: Vec<TypeRow>,
    pub records: Vec<RecordType>,
}

/// A type.
#[derive(Drop)]
pub struct TypeRow {
    pub form: TypeForm,
    /// Whether it is qualified by `volatile` (6.7.3). The other qualifiers are not kept.
    pub volatile: bool,
    /// What is known of the form, kept so that nothing goes down the types for it. A record's stands with the record.
    pub extent: Extent,
}

/// The form of a type.
#[derive(Drop)]
pub enum TypeForm {
    Void,
    Int(IntType),
    Pointer(TypeId),
    /// An array (6.7.5.2) with the number of its elements, where it is known.
    Array(TypeId, Option<u64>),
    /// A structure or union, by its number in the list of records.
    Aggregate(u32),
    Function {
        result: TypeId,
        params: Vec<TypeId>,
        dots: bool,
    },
}

/// Sizes and alignments in bytes, and the class of likeness.
#[derive(Clone, Copy, Debug, PartialEq, Eq)]
pub struct Extent {
    /// 0 where the type is no object type or its size is not known.
    pub size: u64,
    /// At least 1.
    pub align: u64,
    /// Equal for two complete object types, or two function types, exactly where they are alike.
    pub class: u32,
}

/// A structure or union (6.7.2.1).
#[derive(Drop)]
pub struct RecordType {
    pub kind: RecordKind,
    pub tag: Option<Vec<u8>>,
    /// None while its content is not declared.
    pub members: Option<Vec<MemberType>>,
    pub extent: Extent,
}

/// A member, with its offset in bytes.
#[derive(Drop)]
pub struct MemberType {
    pub name: Vec<u8>,
    pub of: TypeId,
    pub offset: u64,
}
