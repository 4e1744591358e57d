//! Typed expressions as words: each form before its parts, with a colon and its type.

use c_typed::{TypeId, TypeKind, TypeTable, TypedExpr, TypedKind};
use std::alloc::{AllocError, Global};
use sv_base::SiteId;

// Longer expressions are cut off.
const MOST: u32 = 100_000;

// Deeper types are cut off.
const DEEPEST: u32 = 20;

/// The words of an expression.
pub fn expression_words(
    alloc: Global,
    table: &TypeTable,
    e: &TypedExpr,
) -> Result<String, AllocError> {
    let mut text = String::new(alloc);
    let mut left = Vec::new(alloc);
    left.push(e)?;
    for _ in 0..MOST {
        let Some(next) = left.pop() else {
            break;
        };
        if !text.is_empty() {
            text.push_str(" ")?;
        }
        push_form(&mut text, table, next)?;
        text.push_str(":")?;
        push_type(&mut text, table, next.of)?;
        push_operands(&mut left, next)?;
    }
    Ok(text)
}

fn push_form(text: &mut String, table: &TypeTable, e: &TypedExpr) -> Result<(), AllocError> {
    match &e.kind {
        TypedKind::Constant(value) => write!(text, "{value}"),
        TypedKind::Local(number) => write!(text, "Local.{number}"),
        TypedKind::Static(number) => write!(text, "Static.{number}"),
        TypedKind::Function(number) => write!(text, "Function.{number}"),
        TypedKind::Member(_, position) => write!(text, "Member.{position}"),
        TypedKind::Deref(_, Some(SiteId(site))) => write!(text, "Deref@{site}"),
        TypedKind::Call(_, arguments) => {
            let count = arguments.len();
            write!(text, "Call{count}")
        }
        _ => push_operator(text, table, e),
    }
}

fn push_operator(text: &mut String, table: &TypeTable, e: &TypedExpr) -> Result<(), AllocError> {
    match &e.kind {
        TypedKind::Unary(op, _) => write!(text, "{op:?}"),
        TypedKind::Binary(op, _, _) => write!(text, "{op:?}"),
        TypedKind::Compare(op, _, _) => write!(text, "{op:?}"),
        TypedKind::Sum { minus, swapped, .. } => {
            text.push_str(if *minus { "Sum-" } else { "Sum+" })?;
            text.push_str(if *swapped { "swapped" } else { "" })
        }
        TypedKind::Update {
            op,
            through,
            old,
            ..
        } => {
            write!(text, "Update{op:?}.")?;
            push_type(text, table, *through)?;
            text.push_str(if *old { ",old" } else { "" })
        }
        kind => text.push_str(plain_name(kind)),
    }
}

fn plain_name(kind: &TypedKind) -> &'static str {
    match kind {
        TypedKind::Null => "Null",
        TypedKind::Deref(_, _) => "Deref",
        TypedKind::Read(_) => "Read",
        TypedKind::Decay(_) => "Decay",
        TypedKind::AddressOf(_) => "AddressOf",
        TypedKind::Convert(_) => "Convert",
        TypedKind::Minus(_, _) => "Minus",
        TypedKind::Not(_) => "IsZero",
        TypedKind::Both(_, _) => "Both",
        TypedKind::Either(_, _) => "Either",
        TypedKind::Choose(_, _, _) => "Choose",
        TypedKind::Assign(_, _) => "Assign",
        TypedKind::Comma(_, _) => "Comma",
        _ => "other",
    }
}

// The operands, the first one last.
fn push_operands<'a>(left: &mut Vec<&'a TypedExpr>, e: &'a TypedExpr) -> Result<(), AllocError> {
    match &e.kind {
        TypedKind::Deref(a, _) | TypedKind::Member(a, _) | TypedKind::Unary(_, a) => left.push(a)?,
        TypedKind::Read(a) | TypedKind::Decay(a) | TypedKind::AddressOf(a) => left.push(a)?,
        TypedKind::Convert(a) | TypedKind::Not(a) => left.push(a)?,
        TypedKind::Binary(_, a, b) | TypedKind::Compare(_, a, b) => push_two(left, a, b)?,
        TypedKind::Minus(a, b) | TypedKind::Both(a, b) | TypedKind::Either(a, b) => {
            push_two(left, a, b)?
        }
        TypedKind::Assign(a, b) | TypedKind::Comma(a, b) => push_two(left, a, b)?,
        TypedKind::Sum { pointer, index, .. } => push_two(left, pointer, index)?,
        TypedKind::Update { target, by, .. } => push_two(left, target, by)?,
        TypedKind::Choose(c, a, b) => {
            push_two(left, a, b)?;
            left.push(c)?;
        }
        TypedKind::Call(function, arguments) => {
            for argument in arguments.iter().rev() {
                left.push(argument)?;
            }
            left.push(function)?;
        }
        _ => {}
    }
    Ok(())
}

fn push_two<'a>(
    left: &mut Vec<&'a TypedExpr>,
    a: &'a TypedExpr,
    b: &'a TypedExpr,
) -> Result<(), AllocError> {
    left.push(b)?;
    left.push(a)?;
    Ok(())
}

// `*` of a pointer and brackets of an array before what they are made of.
fn push_type(text: &mut String, table: &TypeTable, of: TypeId) -> Result<(), AllocError> {
    let mut of = of;
    for _ in 0..DEEPEST {
        if table.is_volatile(of) {
            text.push_str("volatile.")?;
        }
        match table.kind(of) {
            TypeKind::Pointer(to) => {
                text.push_str("*")?;
                of = to;
            }
            TypeKind::Array(element, count) => {
                push_count(text, count)?;
                of = element;
            }
            kind => return push_base(text, table, kind),
        }
    }
    Ok(())
}

fn push_count(text: &mut String, count: Option<u64>) -> Result<(), AllocError> {
    match count {
        Some(count) => write!(text, "[{count}]"),
        None => text.push_str("[]"),
    }
}

fn push_base(text: &mut String, table: &TypeTable, kind: TypeKind) -> Result<(), AllocError> {
    match kind {
        TypeKind::Void => text.push_str("Void"),
        TypeKind::Int(kind) => write!(text, "{kind:?}"),
        TypeKind::Record(number) => push_tag(text, table, number),
        _ => text.push_str("function"),
    }
}

fn push_tag(text: &mut String, table: &TypeTable, number: u32) -> Result<(), AllocError> {
    if let Some(record) = table.record(number) {
        if let Some(tag) = &record.tag {
            for byte in tag {
                text.push(char::from(*byte))?;
            }
        }
    }
    Ok(())
}
