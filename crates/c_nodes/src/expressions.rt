ghost use Rattle.std.specs.Prelude.{◌≡◌, IfOk};
ghost use Rattle.c_nodes.specs.Nodes.{expression};
ghost use Rattle.c_tree.specs.declared.expression.ExprKind.TheVariants as e;

use c_tree::{Expr, ExprKind, HeldArguments, HeldExpr, HeldTypeName};
use c_values::{Cmp, IntType, Op, UnOp};
use sqlite_items::Items;
use std::alloc::{AllocError, Global};
use sv_base::Place;

// What has this form, at a token.
fn expression(kind: ExprKind, place: Place, start: u32) -> HeldExpr
    ensures { result ≡ expression place start kind }
{
    HeldExpr::new(Expr { kind, place, start })
}

/// A name (ISO/IEC 9899:1999, 6.5.1), by its number in the list of names.
pub fn name(name: u32, place: Place, start: u32) -> HeldExpr
    ensures { result ≡ expression place start (e.Name name) }
{
    expression(ExprKind::Name(name), place, start)
}

/// An integer constant (6.4.4.1).
pub fn number(value: u64, kind: IntType, place: Place, start: u32) -> HeldExpr
    ensures { result ≡ expression place start (e.Number value kind) }
{
    expression(ExprKind::Number(value, kind), place, start)
}

/// A character constant (6.4.4.4).
pub fn character(value: i8, place: Place, start: u32) -> HeldExpr
    ensures { result ≡ expression place start (e.Character value) }
{
    expression(ExprKind::Character(value), place, start)
}

/// A string literal (6.4.5).
pub fn text(bytes: Items<u8>, place: Place, start: u32) -> HeldExpr
    ensures { result ≡ expression place start (e.Text bytes) }
{
    expression(ExprKind::Text(bytes), place, start)
}

/// `left[inside]` (6.5.2.1)
pub fn index(
    alloc: Global,
    left: HeldExpr,
    inside: HeldExpr,
    place: Place,
    start: u32,
) -> Result<HeldExpr, AllocError>
    ensures { IfOk result (λ node. node ≡ expression place start (e.Index left inside)) }
{
    let left = left.boxed(alloc)?;
    let inside = inside.boxed(alloc)?;
    Ok(expression(
        ExprKind::Index(left.into_inner(), inside.into_inner()),
        place,
        start,
    ))
}

/// A call (6.5.2.2).
pub fn call(
    alloc: Global,
    callee: HeldExpr,
    arguments: HeldArguments,
    place: Place,
    start: u32,
) -> Result<HeldExpr, AllocError>
    ensures { IfOk result (λ node. node ≡ expression place start (e.Call callee arguments)) }
{
    let callee = callee.boxed(alloc)?;
    Ok(expression(
        ExprKind::Call(callee.into_inner(), arguments.into_inner()),
        place,
        start,
    ))
}

/// `left.name` (6.5.2.3)
pub fn member(
    alloc: Global,
    left: HeldExpr,
    name: u32,
    place: Place,
    start: u32,
) -> Result<HeldExpr, AllocError>
    ensures { IfOk result (λ node. node ≡ expression place start (e.Member left name)) }
{
    let left = left.boxed(alloc)?;
    Ok(expression(ExprKind::Member(left.into_inner(), name), place, start))
}

/// `left->name` (6.5.2.3)
pub fn arrow(
    alloc: Global,
    left: HeldExpr,
    name: u32,
    place: Place,
    start: u32,
) -> Result<HeldExpr, AllocError>
    ensures { IfOk result (λ node. node ≡ expression place start (e.Arrow left name)) }
{
    let left = left.boxed(alloc)?;
    Ok(expression(ExprKind::Arrow(left.into_inner(), name), place, start))
}

/// `++` and `--`, before or behind (6.5.2.4, 6.5.3.1).
pub fn bump(
    alloc: Global,
    up: bool,
    before: bool,
    of: HeldExpr,
    place: Place,
    start: u32,
) -> Result<HeldExpr, AllocError>
    ensures { IfOk result (λ node. node ≡ expression place start (e.Bump up before of)) }
{
    let of = of.boxed(alloc)?;
    Ok(expression(
        ExprKind::Bump {
            up,
            before,
            of: of.into_inner(),
        },
        place,
        start,
    ))
}

/// `&of` (6.5.3.2)
pub fn address_of(
    alloc: Global,
    of: HeldExpr,
    place: Place,
    start: u32,
) -> Result<HeldExpr, AllocError>
    ensures { IfOk result (λ node. node ≡ expression place start (e.AddressOf of)) }
{
    let of = of.boxed(alloc)?;
    Ok(expression(ExprKind::AddressOf(of.into_inner()), place, start))
}

/// `*of` (6.5.3.2)
pub fn deref(alloc: Global, of: HeldExpr, place: Place, start: u32) -> Result<HeldExpr, AllocError>
    ensures { IfOk result (λ node. node ≡ expression place start (e.Deref of)) }
{
    let of = of.boxed(alloc)?;
    Ok(expression(ExprKind::Deref(of.into_inner()), place, start))
}

/// `+of` (6.5.3.3)
pub fn plus(alloc: Global, of: HeldExpr, place: Place, start: u32) -> Result<HeldExpr, AllocError>
    ensures { IfOk result (λ node. node ≡ expression place start (e.Plus of)) }
{
    let of = of.boxed(alloc)?;
    Ok(expression(ExprKind::Plus(of.into_inner()), place, start))
}

/// `-of` and `~of` (6.5.3.3)
pub fn unary(
    alloc: Global,
    op: UnOp,
    of: HeldExpr,
    place: Place,
    start: u32,
) -> Result<HeldExpr, AllocError>
    ensures { IfOk result (λ node. node ≡ expression place start (e.Unary op of)) }
{
    let of = of.boxed(alloc)?;
    Ok(expression(ExprKind::Unary(op, of.into_inner()), place, start))
}

/// `!of` (6.5.3.3)
pub fn negate(alloc: Global, of: HeldExpr, place: Place, start: u32) -> Result<HeldExpr, AllocError>
    ensures { IfOk result (λ node. node ≡ expression place start (e.Negate of)) }
{
    let of = of.boxed(alloc)?;
    Ok(expression(ExprKind::Negate(of.into_inner()), place, start))
}

/// `sizeof of` (6.5.3.4)
pub fn size_of(
    alloc: Global,
    of: HeldExpr,
    place: Place,
    start: u32,
) -> Result<HeldExpr, AllocError>
    ensures { IfOk result (λ node. node ≡ expression place start (e.SizeOf of)) }
{
    let of = of.boxed(alloc)?;
    Ok(expression(ExprKind::SizeOf(of.into_inner()), place, start))
}

/// `sizeof (name)` (6.5.3.4)
pub fn size_of_name(name: HeldTypeName, place: Place, start: u32) -> HeldExpr
    ensures { result ≡ expression place start (e.SizeOfName name) }
{
    expression(ExprKind::SizeOfName(name.into_inner()), place, start)
}

/// `(name) of` (6.5.4)
pub fn cast(
    alloc: Global,
    name: HeldTypeName,
    of: HeldExpr,
    place: Place,
    start: u32,
) -> Result<HeldExpr, AllocError>
    ensures { IfOk result (λ node. node ≡ expression place start (e.Cast name of)) }
{
    let of = of.boxed(alloc)?;
    Ok(expression(
        ExprKind::Cast(name.into_inner(), of.into_inner()),
        place,
        start,
    ))
}

/// An operator with an integer result (6.5.5 to 6.5.7, 6.5.10 to 6.5.12).
pub fn binary(
    alloc: Global,
    op: Op,
    left: HeldExpr,
    right: HeldExpr,
    place: Place,
    start: u32,
) -> Result<HeldExpr, AllocError>
    ensures { IfOk result (λ node. node ≡ expression place start (e.Binary op left right)) }
{
    let left = left.boxed(alloc)?;
    let right = right.boxed(alloc)?;
    Ok(expression(
        ExprKind::Binary(op, left.into_inner(), right.into_inner()),
        place,
        start,
    ))
}

/// A comparison (6.5.8, 6.5.9).
pub fn compare(
    alloc: Global,
    op: Cmp,
    left: HeldExpr,
    right: HeldExpr,
    place: Place,
    start: u32,
) -> Result<HeldExpr, AllocError>
    ensures { IfOk result (λ node. node ≡ expression place start (e.Compare op left right)) }
{
    let left = left.boxed(alloc)?;
    let right = right.boxed(alloc)?;
    Ok(expression(
        ExprKind::Compare(op, left.into_inner(), right.into_inner()),
        place,
        start,
    ))
}

/// `left && right` (6.5.13)
pub fn both(
    alloc: Global,
    left: HeldExpr,
    right: HeldExpr,
    place: Place,
    start: u32,
) -> Result<HeldExpr, AllocError>
    ensures { IfOk result (λ node. node ≡ expression place start (e.Both left right)) }
{
    let left = left.boxed(alloc)?;
    let right = right.boxed(alloc)?;
    Ok(expression(
        ExprKind::Both(left.into_inner(), right.into_inner()),
        place,
        start,
    ))
}

/// `left || right` (6.5.14)
pub fn either(
    alloc: Global,
    left: HeldExpr,
    right: HeldExpr,
    place: Place,
    start: u32,
) -> Result<HeldExpr, AllocError>
    ensures { IfOk result (λ node. node ≡ expression place start (e.Either left right)) }
{
    let left = left.boxed(alloc)?;
    let right = right.boxed(alloc)?;
    Ok(expression(
        ExprKind::Either(left.into_inner(), right.into_inner()),
        place,
        start,
    ))
}

/// `test ? left : right` (6.5.15)
pub fn choose(
    alloc: Global,
    test: HeldExpr,
    left: HeldExpr,
    right: HeldExpr,
    place: Place,
    start: u32,
) -> Result<HeldExpr, AllocError>
    ensures { IfOk result (λ node. node ≡ expression place start (e.Choose test left right)) }
{
    let test = test.boxed(alloc)?;
    let left = left.boxed(alloc)?;
    let right = right.boxed(alloc)?;
    Ok(expression(
        ExprKind::Choose(test.into_inner(), left.into_inner(), right.into_inner()),
        place,
        start,
    ))
}

/// `left = right`, or a compound assignment with its operator (6.5.16).
pub fn assign(
    alloc: Global,
    op: Option<Op>,
    left: HeldExpr,
    right: HeldExpr,
    place: Place,
    start: u32,
) -> Result<HeldExpr, AllocError>
    ensures { IfOk result (λ node. node ≡ expression place start (e.Assign op left right)) }
{
    let left = left.boxed(alloc)?;
    let right = right.boxed(alloc)?;
    Ok(expression(
        ExprKind::Assign(op, left.into_inner(), right.into_inner()),
        place,
        start,
    ))
}

/// `left, right` (6.5.17)
pub fn comma(
    alloc: Global,
    left: HeldExpr,
    right: HeldExpr,
    place: Place,
    start: u32,
) -> Result<HeldExpr, AllocError>
    ensures { IfOk result (λ node. node ≡ expression place start (e.Comma left right)) }
{
    let left = left.boxed(alloc)?;
    let right = right.boxed(alloc)?;
    Ok(expression(
        ExprKind::Comma(left.into_inner(), right.into_inner()),
        place,
        start,
    ))
}
