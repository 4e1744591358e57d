use c_typed::{TypedExpr, TypedStatement};
use sv_base::NoMemory;

/// The statements directly inside one.
pub fn push_inner<'a>(
    left: &mut Vec<&'a TypedStatement>,
    s: &'a TypedStatement,
) -> Result<(), NoMemory> {
    match s {
        TypedStatement::Block { items, .. } => {
            for item in items {
                left.push(item)?;
            }
        }
        TypedStatement::If(_, a, b) => {
            left.push(a)?;
            left.push(b)?;
        }
        TypedStatement::Switch(_, a) | TypedStatement::While(_, a) => left.push(a)?,
        TypedStatement::Do(a, _) => left.push(a)?,
        TypedStatement::For { body, .. } => left.push(body)?,
        TypedStatement::Start(_) | TypedStatement::Plain(_) | TypedStatement::Nothing => {}
        TypedStatement::Case(_) | TypedStatement::Default | TypedStatement::Break => {}
        TypedStatement::Continue | TypedStatement::Return(_) => {}
    }
    Ok(())
}

fn push_some<'a>(left: &mut Vec<&'a TypedExpr>, e: &'a Option<TypedExpr>) -> Result<(), NoMemory> {
    if let Some(e) = e {
        left.push(e)?;
    }
    Ok(())
}

/// The expressions directly inside a statement.
pub fn push_expressions<'a>(
    left: &mut Vec<&'a TypedExpr>,
    s: &'a TypedStatement,
) -> Result<(), NoMemory> {
    match s {
        TypedStatement::Plain(e) => left.push(e)?,
        TypedStatement::If(e, _, _) | TypedStatement::Switch(e, _) => left.push(e)?,
        TypedStatement::While(e, _) | TypedStatement::Do(_, e) => left.push(e)?,
        TypedStatement::For { test, last, .. } => {
            push_some(left, test)?;
            push_some(left, last)?;
        }
        TypedStatement::Return(e) => push_some(left, e)?,
        TypedStatement::Block { .. } | TypedStatement::Start(_) | TypedStatement::Nothing => {}
        TypedStatement::Case(_) | TypedStatement::Default => {}
        TypedStatement::Break | TypedStatement::Continue => {}
    }
    Ok(())
}
