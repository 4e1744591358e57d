use crate::table::TypeId;
use c_values::{Cmp, Op, UnOp};
use sv_base::{Place, SiteId};

/// An expression with its type, in which each conversion is written out (ISO/IEC 9899:1999, 6.3 and 6.5).
#[cycle(typed)]
#[derive(Drop)]
pub struct TypedExpr {
    pub kind: TypedKind,
    pub of: TypeId,
    pub place: Place,
    /// The offset of the token at the place.
    pub start: u32,
}

#[cycle(typed)]
#[derive(Drop)]
pub enum TypedKind {
    Constant(i128),
    /// A null pointer (6.3.2.3).
    Null,
    /// An object of the function, by its number.
    Local(u32),
    /// A name with linkage, by its number in the file. It stands in the bodies of one file alone.
    Linked(u32),
    /// An object of static duration, by its number in the program.
    Static(u32),
    /// A function, by its number in the program; the external ones come after the defined ones.
    Function(u32),
    /// What a pointer leads to, and its site where it is one.
    Deref(Box<TypedExpr>, Option<SiteId>),
    /// A member by its position.
    Member(Box<TypedExpr>, u32),
    /// The value of an lvalue (6.3.2.1).
    Read(Box<TypedExpr>),
    /// The pointer that an array or a function becomes (6.3.2.1).
    Decay(Box<TypedExpr>),
    AddressOf(Box<TypedExpr>),
    Convert(Box<TypedExpr>),
    Unary(UnOp, Box<TypedExpr>),
    /// An operator on two integers of the type, of which the count of a shift may have another.
    Binary(Op, Box<TypedExpr>, Box<TypedExpr>),
    /// A pointer plus or minus an integer, which was written first where `swapped`.
    Sum {
        pointer: Box<TypedExpr>,
        index: Box<TypedExpr>,
        minus: bool,
        swapped: bool,
    },
    /// The difference of two pointers.
    Minus(Box<TypedExpr>, Box<TypedExpr>),
    Compare(Cmp, Box<TypedExpr>, Box<TypedExpr>),
    /// `!a`
    Not(Box<TypedExpr>),
    /// `a && b`
    Both(Box<TypedExpr>, Box<TypedExpr>),
    /// `a || b`
    Either(Box<TypedExpr>, Box<TypedExpr>),
    /// `a ? b : c`
    Choose(Box<TypedExpr>, Box<TypedExpr>, Box<TypedExpr>),
    Assign(Box<TypedExpr>, Box<TypedExpr>),
    /// A compound assignment, `++` or `--`: the operator is done in the type `through`, and the value is the one before
    /// where `old`.
    Update {
        op: Op,
        target: Box<TypedExpr>,
        by: Box<TypedExpr>,
        through: TypeId,
        old: bool,
    },
    Call(Box<TypedExpr>, Vec<TypedExpr>),
    /// `a, b`
    Comma(Box<TypedExpr>, Box<TypedExpr>),
}
