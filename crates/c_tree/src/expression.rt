use crate::declarator::TypeName;
use c_values::{Cmp, IntType, Op, UnOp};
use sqlite_items::{Boxed, Items};
use sv_base::Place;

/// An expression (ISO/IEC 9899:1999, 6.5). It stands at its operator: a call or a cast at its `(`, a subscript at its `[`;
/// and what has no operator stands at its first token. Parentheses make no node.
#[cycle(syntax)]
#[derive(Drop)]
pub struct Expr {
    pub kind: ExprKind,
    pub place: Place,
    /// The offset of the token at the place.
    pub start: u32,
}

/// Names are numbers in the tree's list of names.
#[cycle(syntax)]
#[derive(Drop)]
pub enum ExprKind {
    Name(u32),
    Number(u64, IntType),
    Character(i8),
    /// Neighbouring texts joined (6.4.5).
    Text(Items<u8>),
    /// `a[b]`
    Index(Boxed<Expr>, Boxed<Expr>),
    Call(Boxed<Expr>, Items<Expr>),
    /// `a.b`
    Member(Boxed<Expr>, u32),
    /// `a->b`
    Arrow(Boxed<Expr>, u32),
    /// `++` and `--`, before or behind.
    Bump {
        up: bool,
        before: bool,
        of: Boxed<Expr>,
    },
    AddressOf(Boxed<Expr>),
    Deref(Boxed<Expr>),
    Plus(Boxed<Expr>),
    Unary(UnOp, Boxed<Expr>),
    /// `!a`
    Negate(Boxed<Expr>),
    SizeOf(Boxed<Expr>),
    SizeOfName(TypeName),
    Cast(TypeName, Boxed<Expr>),
    Binary(Op, Boxed<Expr>, Boxed<Expr>),
    Compare(Cmp, Boxed<Expr>, Boxed<Expr>),
    /// `a && b`
    Both(Boxed<Expr>, Boxed<Expr>),
    /// `a || b`
    Either(Boxed<Expr>, Boxed<Expr>),
    /// `a ? b : c`
    Choose(Boxed<Expr>, Boxed<Expr>, Boxed<Expr>),
    /// `a = b`, or a compound assignment with its operator.
    Assign(Option<Op>, Boxed<Expr>, Boxed<Expr>),
    Comma(Boxed<Expr>, Boxed<Expr>),
}
