use crate::expression::TypedExpr;

/// A statement (ISO/IEC 9899:1999, 6.8).
#[derive(Drop)]
pub enum TypedStatement {
    /// A block with the numbers of the automatic objects that it declares.
    Block {
        objects: Vec<u32>,
        items: Vec<TypedStatement>,
    },
    /// The place at which an automatic object's initialiser is evaluated (6.8).
    Start(u32),
    Plain(TypedExpr),
    Nothing,
    If(TypedExpr, Box<TypedStatement>, Box<TypedStatement>),
    /// The body is a block, in which the labels of this statement stand.
    Switch(TypedExpr, Box<TypedStatement>),
    Case(i128),
    Default,
    While(TypedExpr, Box<TypedStatement>),
    Do(Box<TypedStatement>, TypedExpr),
    /// What stands first in the head comes before this statement.
    For {
        test: Option<TypedExpr>,
        last: Option<TypedExpr>,
        body: Box<TypedStatement>,
    },
    Break,
    Continue,
    Return(Option<TypedExpr>),
}
