//! What is read off a table of types. A number that is not in the table reads as `void`.

use crate::table::{Extent, RecordType, TypeForm, TypeId, TypeRow, TypeTable};
use c_values::IntType;

/// The form of a type as a value; the parameters of a function are asked for by themselves.
#[derive(Clone, Copy, Debug, PartialEq, Eq)]
pub enum TypeKind {
    Void,
    Int(IntType),
    Pointer(TypeId),
    Array(TypeId, Option<u64>),
    /// A structure or union, by its number in the list of records.
    Record(u32),
    /// A function with this result.
    Function(TypeId),
}

/// What has no size.
pub const UNSIZED: Extent = Extent {
    size: 0,
    align: 1,
    class: 0,
};

fn kind_of(form: &TypeForm) -> TypeKind {
    match form {
        TypeForm::Void => TypeKind::Void,
        TypeForm::Int(kind) => TypeKind::Int(*kind),
        TypeForm::Pointer(of) => TypeKind::Pointer(*of),
        TypeForm::Array(of, count) => TypeKind::Array(*of, *count),
        TypeForm::Aggregate(record) => TypeKind::Record(*record),
        TypeForm::Function { result, .. } => TypeKind::Function(*result),
    }
}

impl TypeTable {
    pub fn row(&self, of: TypeId) -> Option<&TypeRow> {
        self.rows.get(of.0 as usize)
    }

    pub fn kind(&self, of: TypeId) -> TypeKind {
        match self.row(of) {
            Some(row) => kind_of(&row.form),
            None => TypeKind::Void,
        }
    }

    pub fn is_volatile(&self, of: TypeId) -> bool {
        match self.row(of) {
            Some(row) => row.volatile,
            None => false,
        }
    }

    pub fn record(&self, number: u32) -> Option<&RecordType> {
        self.records.get(number as usize)
    }

    /// The types of a function's parameters; of another type none.
    pub fn params(&self, of: TypeId) -> &[TypeId] {
        match self.row(of) {
            Some(row) => params_of(&row.form),
            None => &[],
        }
    }

    /// Whether the type is that of a function with further arguments (ISO/IEC 9899:1999, 6.7.5.3).
    pub fn has_dots(&self, of: TypeId) -> bool {
        match self.row(of) {
            Some(row) => dots_of(&row.form),
            None => false,
        }
    }

    /// What is known of the type's size, alignment and likeness.
    pub fn extent(&self, of: TypeId) -> Extent {
        match self.row(of) {
            Some(row) => match row.form {
                TypeForm::Aggregate(number) => self.record_extent(number),
                _ => row.extent,
            },
            None => UNSIZED,
        }
    }

    fn record_extent(&self, number: u32) -> Extent {
        match self.record(number) {
            Some(record) => record.extent,
            None => UNSIZED,
        }
    }

    /// The bytes of a complete object type (6.5.3.4).
    pub fn size(&self, of: TypeId) -> Option<u64> {
        match self.extent(of).size {
            0 => None,
            size => Some(size),
        }
    }

    /// Bytes, at least 1 (6.2.5).
    pub fn align(&self, of: TypeId) -> u64 {
        self.extent(of).align
    }

    /// Whether it is a complete object type (6.2.5).
    pub fn is_complete(&self, of: TypeId) -> bool {
        self.extent(of).size != 0
    }

    /// Equal for two complete object types, or two function types, exactly where they are alike.
    pub fn class(&self, of: TypeId) -> u32 {
        self.extent(of).class
    }

    /// Whether two types are alike. Qualifiers do not count, and pointers are all alike. Integers are alike by the same type,
    /// and records by kind, tag, and the names and types of their members. An array without a size is like each array of
    /// like elements, and a record without its content like each of its kind and tag.
    pub fn alike(&self, one: TypeId, other: TypeId) -> bool {
        match (self.kind(one), self.kind(other)) {
            (TypeKind::Array(a, m), TypeKind::Array(b, n)) => {
                counts_agree(m, n) && self.class(a) == self.class(b)
            }
            (TypeKind::Record(a), TypeKind::Record(b)) => a == b || self.records_alike(a, b),
            (TypeKind::Int(a), TypeKind::Int(b)) => a == b,
            (TypeKind::Function(_), TypeKind::Function(_)) => self.class(one) == self.class(other),
            (TypeKind::Void, TypeKind::Void) => true,
            (TypeKind::Pointer(_), TypeKind::Pointer(_)) => true,
            _ => false,
        }
    }

    fn records_alike(&self, one: u32, other: u32) -> bool {
        match (self.record(one), self.record(other)) {
            (Some(a), Some(b)) => {
                if a.kind != b.kind || a.tag != b.tag {
                    return false;
                }
                a.members.is_none() || b.members.is_none() || a.extent.class == b.extent.class
            }
            _ => false,
        }
    }

    /// The type of a name that was declared with the first type and again with a like one (6.2.7): an array takes its size
    /// from the other.
    pub fn composite(&self, first: TypeId, again: TypeId) -> TypeId {
        match (self.kind(first), self.kind(again)) {
            (TypeKind::Array(_, None), TypeKind::Array(_, _)) => again,
            _ => first,
        }
    }
}

fn counts_agree(one: Option<u64>, other: Option<u64>) -> bool {
    match (one, other) {
        (Some(m), Some(n)) => m == n,
        _ => true,
    }
}

fn params_of(form: &TypeForm) -> &[TypeId] {
    match form {
        TypeForm::Function { params, .. } => params.as_slice(),
        _ => &[],
    }
}

fn dots_of(form: &TypeForm) -> bool {
    match form {
        TypeForm::Function { dots, .. } => *dots,
        _ => false,
    }
}
