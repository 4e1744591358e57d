ghost use Rattle.std.specs.Prelude.{◌≡◌, IfOk};
ghost use Rattle.c_nodes.specs.Nodes.{statement};
ghost use Rattle.c_tree.specs.declared.statement.ForFirst.TheVariants as head;
ghost use Rattle.c_tree.specs.declared.statement.StatementKind.TheVariants as st;

use c_tree::{
    ForFirst, HeldBlock, HeldBody, HeldDeclaration, HeldExpr, HeldFirst, HeldStatement, Statement,
    StatementKind,
};
use sqlite_items::Boxed;
use std::alloc::{AllocError, Global};
use sv_base::Place;

/// A statement at its first token (ISO/IEC 9899:1999, 6.8).
pub fn statement(kind: StatementKind, place: Place, start: u32) -> HeldStatement
    ensures { result ≡ statement place start kind }
{
    HeldStatement::new(Statement { kind, place, start })
}

/// A compound statement (6.8.2).
pub fn compound(items: HeldBlock, place: Place, start: u32) -> HeldStatement
    ensures { result ≡ statement place start (st.Compound items) }
{
    statement(StatementKind::Compound(items.into_inner()), place, start)
}

/// An expression or a null statement (6.8.3).
pub fn plain(of: Option<HeldExpr>, place: Place, start: u32) -> HeldStatement
    ensures { result ≡ statement place start (st.Plain of) }
{
    let of = HeldExpr::inside(of);
    statement(StatementKind::Plain(of), place, start)
}

// A statement in memory of its own, where there is one.
fn boxed(alloc: Global, other: Option<HeldStatement>) -> Result<Option<HeldBody>, AllocError>
    ensures { IfOk result (λ body. body ≡ other) }
{
    match other {
        Some(other) => Ok(Some(other.boxed(alloc)?)),
        None => Ok(None),
    }
}

fn body_in(other: Option<HeldBody>) -> Option<Boxed<Statement>>
    ensures { result ≡ other }
{
    match other {
        Some(other) => Some(other.into_inner()),
        None => None,
    }
}

/// An `if` (6.8.4.1).
pub fn if_else(
    alloc: Global,
    test: HeldExpr,
    body: HeldStatement,
    other: Option<HeldStatement>,
    place: Place,
    start: u32,
) -> Result<HeldStatement, AllocError>
    ensures { IfOk result (λ node. node ≡ statement place start (st.If test body other)) }
{
    let body = body.boxed(alloc)?;
    let other = boxed(alloc, other)?;
    let other = body_in(other);
    Ok(statement(
        StatementKind::If(test.into_inner(), body.into_inner(), other),
        place,
        start,
    ))
}

/// A `switch` (6.8.4.2).
pub fn switch(
    alloc: Global,
    of: HeldExpr,
    body: HeldStatement,
    place: Place,
    start: u32,
) -> Result<HeldStatement, AllocError>
    ensures { IfOk result (λ node. node ≡ statement place start (st.Switch of body)) }
{
    let body = body.boxed(alloc)?;
    Ok(statement(
        StatementKind::Switch(of.into_inner(), body.into_inner()),
        place,
        start,
    ))
}

/// A `case` (6.8.1).
pub fn case(
    alloc: Global,
    value: HeldExpr,
    body: HeldStatement,
    place: Place,
    start: u32,
) -> Result<HeldStatement, AllocError>
    ensures { IfOk result (λ node. node ≡ statement place start (st.Case value body)) }
{
    let body = body.boxed(alloc)?;
    Ok(statement(
        StatementKind::Case(value.into_inner(), body.into_inner()),
        place,
        start,
    ))
}

/// A `default` (6.8.1).
pub fn default(
    alloc: Global,
    body: HeldStatement,
    place: Place,
    start: u32,
) -> Result<HeldStatement, AllocError>
    ensures { IfOk result (λ node. node ≡ statement place start (st.Default body)) }
{
    let body = body.boxed(alloc)?;
    Ok(statement(StatementKind::Default(body.into_inner()), place, start))
}

/// A `while` (6.8.5.1).
pub fn while_loop(
    alloc: Global,
    test: HeldExpr,
    body: HeldStatement,
    place: Place,
    start: u32,
) -> Result<HeldStatement, AllocError>
    ensures { IfOk result (λ node. node ≡ statement place start (st.While test body)) }
{
    let body = body.boxed(alloc)?;
    Ok(statement(
        StatementKind::While(test.into_inner(), body.into_inner()),
        place,
        start,
    ))
}

/// A `do` (6.8.5.2).
pub fn do_while(
    alloc: Global,
    body: HeldStatement,
    test: HeldExpr,
    place: Place,
    start: u32,
) -> Result<HeldStatement, AllocError>
    ensures { IfOk result (λ node. node ≡ statement place start (st.Do body test)) }
{
    let body = body.boxed(alloc)?;
    Ok(statement(
        StatementKind::Do(body.into_inner(), test.into_inner()),
        place,
        start,
    ))
}

/// A `for` (6.8.5.3).
pub fn for_loop(
    alloc: Global,
    first: HeldFirst,
    test: Option<HeldExpr>,
    last: Option<HeldExpr>,
    body: HeldStatement,
    place: Place,
    start: u32,
) -> Result<HeldStatement, AllocError>
    ensures { IfOk result (λ node. node ≡ statement place start (st.For first test last body)) }
{
    let body = body.boxed(alloc)?;
    let test = HeldExpr::inside(test);
    let last = HeldExpr::inside(last);
    Ok(statement(
        StatementKind::For {
            first: first.into_inner(),
            test,
            last,
            body: body.into_inner(),
        },
        place,
        start,
    ))
}

/// Nothing first in the head of a `for` (6.8.5.3).
pub fn first_nothing() -> HeldFirst
    ensures { result ≡ head.Nothing }
{
    HeldFirst::new(ForFirst::Nothing)
}

/// An expression there.
pub fn first_expression(of: HeldExpr) -> HeldFirst
    ensures { result ≡ head.One of }
{
    HeldFirst::new(ForFirst::One(of.into_inner()))
}

/// A declaration there.
pub fn first_declaration(of: HeldDeclaration) -> HeldFirst
    ensures { result ≡ head.Declaration of }
{
    HeldFirst::new(ForFirst::Declaration(of.into_inner()))
}

/// `break` (6.8.6.3)
pub fn break_out(place: Place, start: u32) -> HeldStatement
    ensures { result ≡ statement place start st.Break }
{
    statement(StatementKind::Break, place, start)
}

/// `continue` (6.8.6.2)
pub fn go_on(place: Place, start: u32) -> HeldStatement
    ensures { result ≡ statement place start st.Continue }
{
    statement(StatementKind::Continue, place, start)
}

/// `return` (6.8.6.4)
pub fn give_back(of: Option<HeldExpr>, place: Place, start: u32) -> HeldStatement
    ensures { result ≡ statement place start (st.Return of) }
{
    let of = HeldExpr::inside(of);
    statement(StatementKind::Return(of), place, start)
}
