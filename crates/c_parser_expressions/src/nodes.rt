//! Nodes of expressions by the tokens of their operators.
ghost use Rattle.std.specs.Prelude.{◌≡◌, IfOk};
ghost use Rattle.c_grammar.specs.Trees as trees;

use c_kinds::operators::assigned_by;
use c_syntax::marks;
use c_tree::{HeldExpr, Lexeme, LexemeKind};
use c_values::{Cmp, Op, UnOp};
use std::alloc::{AllocError, Global};

/// The number of a punctuator. Of any other token it is that of the comma, which is no operator here.
fn mark_of(token: &Lexeme) -> u8 {
    match &token.kind {
        LexemeKind::Mark(mark) => *mark,
        _ => marks::COMMA,
    }
}

/// A unary operator other than `++`, `--` and `sizeof`, applied (ISO/IEC 9899:1999, 6.5.3.2, 6.5.3.3). No caller passes
/// another token.
pub(crate) fn applied(alloc: Global, token: &Lexeme, of: HeldExpr) -> Result<HeldExpr, AllocError> {
    let place = token.place;
    let start = token.start;
    match mark_of(token) {
        marks::AMPERSAND => c_nodes::address_of(alloc, of, place, start),
        marks::ASTERISK => c_nodes::deref(alloc, of, place, start),
        marks::PLUS => c_nodes::plus(alloc, of, place, start),
        marks::MINUS => c_nodes::unary(alloc, UnOp::Neg, of, place, start),
        marks::TILDE => c_nodes::unary(alloc, UnOp::Not, of, place, start),
        _ => c_nodes::negate(alloc, of, place, start),
    }
}

/// What a binary operator with an integer result computes (6.5.5 to 6.5.7, 6.5.10 to 6.5.12).
fn computed_by(mark: u8) -> Option<Op> {
    match mark {
        marks::ASTERISK => Some(Op::Mul),
        marks::SLASH => Some(Op::Div),
        marks::PERCENT => Some(Op::Rem),
        marks::PLUS => Some(Op::Add),
        marks::MINUS => Some(Op::Sub),
        marks::SHIFT_LEFT => Some(Op::Shl),
        marks::SHIFT_RIGHT => Some(Op::Shr),
        marks::AMPERSAND => Some(Op::And),
        marks::CARET => Some(Op::Xor),
        marks::BAR => Some(Op::Or),
        _ => None,
    }
}

/// What a comparison compares by (6.5.8, 6.5.9).
fn compared_by(mark: u8) -> Option<Cmp> {
    match mark {
        marks::LESS => Some(Cmp::Lt),
        marks::GREATER => Some(Cmp::Gt),
        marks::LESS_EQUAL => Some(Cmp::Le),
        marks::GREATER_EQUAL => Some(Cmp::Ge),
        marks::EQUAL_EQUAL => Some(Cmp::Eq),
        marks::NOT_EQUAL => Some(Cmp::Ne),
        _ => None,
    }
}

/// The operands of a binary operator, joined. No caller passes another token.
pub(crate) fn joined(
    alloc: Global,
    token: &Lexeme,
    left: HeldExpr,
    right: HeldExpr,
) -> Result<HeldExpr, AllocError> {
    let place = token.place;
    let start = token.start;
    let mark = mark_of(token);
    if let Some(op) = computed_by(mark) {
        return c_nodes::binary(alloc, op, left, right, place, start);
    }
    if let Some(op) = compared_by(mark) {
        return c_nodes::compare(alloc, op, left, right, place, start);
    }
    if mark == marks::AND_AND {
        return c_nodes::both(alloc, left, right, place, start);
    }
    c_nodes::either(alloc, left, right, place, start)
}

/// An assignment (6.5.16). No caller passes a token that is no assignment operator.
pub(crate) fn assigned(
    alloc: Global,
    token: &Lexeme,
    left: HeldExpr,
    value: HeldExpr,
) -> Result<HeldExpr, AllocError>
    ensures { IfOk result (λ node. node ≡ trees.assigned token.now left value) }
{
    let op = assigned_by(&token.kind).unwrap_or(None);
    c_nodes::assign(alloc, op, left, value, token.place, token.start)
}
