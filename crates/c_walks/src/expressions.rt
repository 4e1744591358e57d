use c_typed::{TypedExpr, TypedKind};
use sv_base::NoMemory;

fn push_two<'a>(
    left: &mut Vec<&'a TypedExpr>,
    a: &'a TypedExpr,
    b: &'a TypedExpr,
) -> Result<(), NoMemory> {
    left.push(a)?;
    left.push(b)?;
    Ok(())
}

fn push_all<'a>(left: &mut Vec<&'a TypedExpr>, all: &'a [TypedExpr]) -> Result<(), NoMemory> {
    for e in all {
        left.push(e)?;
    }
    Ok(())
}

/// The expressions directly inside one.
pub fn push_parts<'a>(left: &mut Vec<&'a TypedExpr>, e: &'a TypedExpr) -> Result<(), NoMemory> {
    match &e.kind {
        TypedKind::Constant(_) | TypedKind::Null | TypedKind::Local(_) | TypedKind::Linked(_) => {}
        TypedKind::Static(_) | TypedKind::Function(_) => {}
        TypedKind::Deref(a, _) | TypedKind::Member(a, _) => left.push(a)?,
        TypedKind::Read(a) | TypedKind::Decay(a) | TypedKind::AddressOf(a) => left.push(a)?,
        TypedKind::Convert(a) | TypedKind::Unary(_, a) | TypedKind::Not(a) => left.push(a)?,
        TypedKind::Binary(_, a, b) => push_two(left, a, b)?,
        TypedKind::Compare(_, a, b) => push_two(left, a, b)?,
        TypedKind::Minus(a, b) | TypedKind::Both(a, b) => push_two(left, a, b)?,
        TypedKind::Either(a, b) | TypedKind::Assign(a, b) => push_two(left, a, b)?,
        TypedKind::Comma(a, b) => push_two(left, a, b)?,
        TypedKind::Sum { pointer, index, .. } => push_two(left, pointer, index)?,
        TypedKind::Update { target, by, .. } => push_two(left, target, by)?,
        TypedKind::Choose(a, b, c) => {
            left.push(a)?;
            push_two(left, b, c)?;
        }
        TypedKind::Call(f, args) => {
            left.push(f)?;
            push_all(left, args)?;
        }
    }
    Ok(())
}
