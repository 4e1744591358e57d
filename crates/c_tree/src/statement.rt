use crate::declaration::Declaration;
use crate::expression::Expr;
use sqlite_items::{Boxed, Items};
use sv_base::Place;

/// A statement (ISO/IEC 9899:1999, 6.8), at its first token.
#[cycle(statements)]
#[derive(Drop)]
pub struct Statement {
    pub kind: StatementKind,
    pub place: Place,
    /// The offset of the token at the place.
    pub start: u32,
}

#[cycle(statements)]
#[derive(Drop)]
pub enum StatementKind {
    Compound(Items<BlockItem>),
    Plain(Option<Expr>),
    If(Expr, Boxed<Statement>, Option<Boxed<Statement>>),
    Switch(Expr, Boxed<Statement>),
    Case(Expr, Boxed<Statement>),
    Default(Boxed<Statement>),
    While(Expr, Boxed<Statement>),
    Do(Boxed<Statement>, Expr),
    For {
        first: ForFirst,
        test: Option<Expr>,
        last: Option<Expr>,
        body: Boxed<Statement>,
    },
    Break,
    Continue,
    Return(Option<Expr>),
}

/// What a block has (6.8.2).
#[cycle(statements)]
#[derive(Drop)]
pub enum BlockItem {
    Declaration(Declaration),
    Statement(Statement),
}

/// What stands first in the head of a `for` (6.8.5.3).
#[derive(Drop)]
pub enum ForFirst {
    Nothing,
    One(Expr),
    Declaration(Declaration),
}
