//! Nodes of primary and postfix expressions, each at a token.

ghost use Rattle.std.specs.Prelude.{◌≡◌, false, IfOk};
ghost use Rattle.c_grammar.specs.Tokens.{name_of};
ghost use Rattle.c_grammar.specs.Trees.{expression, constant_in, goes_up};
ghost use Rattle.c_tree.specs.declared.expression.ExprKind.TheVariants as e;

use c_kinds::kinds::{is_mark, name_in};
use c_syntax::marks;
use c_tree::{HeldArguments, HeldExpr, Lexeme, LexemeKind};
use sqlite_items::Items;
use std::alloc::{AllocError, Global};

/// A name (ISO/IEC 9899:1999, 6.5.1).
pub fn name(token: &Lexeme) -> HeldExpr
    ensures { result ≡ expression token.now (e.Name (name_of token.now)) }
{
    c_nodes::name(name_in(&token.kind), token.place, token.start)
}

/// An integer or a character constant (6.4.4.1, 6.4.4.4). Of any other token it is the name 0, which no caller asks for.
pub fn constant(token: &Lexeme) -> HeldExpr
    ensures { result ≡ expression token.now (constant_in token.now.kind) }
{
    match &token.kind {
        LexemeKind::Number(value, kind) => {
            c_nodes::number(*value, *kind, token.place, token.start)
        }
        LexemeKind::Character(value) => c_nodes::character(*value, token.place, token.start),
        _ => c_nodes::name(0, token.place, token.start),
    }
}

/// A string literal (6.4.5) at the first of its tokens.
pub fn text(token: &Lexeme, bytes: Items<u8>) -> HeldExpr
    ensures { result ≡ expression token.now (e.Text bytes) }
{
    c_nodes::text(bytes, token.place, token.start)
}

/// `left[inside]` (6.5.2.1), at its `[`.
pub fn index(
    alloc: Global,
    token: &Lexeme,
    left: HeldExpr,
    inside: HeldExpr,
) -> Result<HeldExpr, AllocError>
    ensures { IfOk result (λ node. node ≡ expression token.now (e.Index left inside)) }
{
    c_nodes::index(alloc, left, inside, token.place, token.start)
}

/// A call (6.5.2.2), at its `(`.
pub fn call(
    alloc: Global,
    token: &Lexeme,
    callee: HeldExpr,
    arguments: HeldArguments,
) -> Result<HeldExpr, AllocError>
    ensures { IfOk result (λ node. node ≡ expression token.now (e.Call callee arguments)) }
{
    c_nodes::call(alloc, callee, arguments, token.place, token.start)
}

/// `left.name` (6.5.2.3), at its `.`. The name is another token.
pub fn member(
    alloc: Global,
    token: &Lexeme,
    left: HeldExpr,
    name: &Lexeme,
) -> Result<HeldExpr, AllocError>
    ensures { IfOk result (λ node. node ≡ expression token.now (e.Member left (name_of name.now))) }
{
    c_nodes::member(alloc, left, name_in(&name.kind), token.place, token.start)
}

/// `left->name` (6.5.2.3), at its `->`. The name is another token.
pub fn arrow(
    alloc: Global,
    token: &Lexeme,
    left: HeldExpr,
    name: &Lexeme,
) -> Result<HeldExpr, AllocError>
    ensures { IfOk result (λ node. node ≡ expression token.now (e.Arrow left (name_of name.now))) }
{
    c_nodes::arrow(alloc, left, name_in(&name.kind), token.place, token.start)
}

/// `++` or `--` behind its operand (6.5.2.4).
pub fn bump(alloc: Global, token: &Lexeme, of: HeldExpr) -> Result<HeldExpr, AllocError>
    ensures { IfOk result (λ node. node ≡ expression token.now (e.Bump (goes_up token.now) false of)) }
{
    let up = is_mark(marks::PLUS_PLUS, &token.kind);
    c_nodes::bump(alloc, up, false, of, token.place, token.start)
}
