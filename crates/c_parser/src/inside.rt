//! Expressions, type names, specifiers and declarators, which hold one another.

use c_cursor::{Cursor, ReadError};
use c_parser_declarators::{Declarators, Declared, Mode};
use c_parser_expressions::{Expressions, Form};
use c_tree::{HeldExpr, HeldSpecifiers, HeldTypeName};
use std::alloc::Global;

/// How deep readers may call one another. The limit of the nesting is passed before: between two nodes of one path at most four
/// readers call one another.
pub(crate) const MOST_CALLS: usize = 1032;

/// An expression of a form (ISO/IEC 9899:1999, 6.5).
#[cycle(inside)]
pub(crate) fn expression(
    alloc: Global,
    depth: usize,
    form: Form,
    cursor: &mut Cursor<'_>,
) -> Result<HeldExpr, ReadError> {
    if depth == 0 {
        return Err(ReadError::TooDeep);
    }
    cursor.stop_past_limit()?;
    let reader = Expressions {
        alloc,
        depth: depth - 1,
        inside: expression,
        type_name,
    };
    reader.read(form, cursor)
}

/// A constant expression (6.6).
#[cycle(inside)]
pub(crate) fn constant(
    alloc: Global,
    depth: usize,
    cursor: &mut Cursor<'_>,
) -> Result<HeldExpr, ReadError> {
    if depth == 0 {
        return Err(ReadError::TooDeep);
    }
    expression(alloc, depth - 1, Form::Constant, cursor)
}

/// A type name (6.7.6).
#[cycle(inside)]
pub(crate) fn type_name(
    alloc: Global,
    depth: usize,
    cursor: &mut Cursor<'_>,
) -> Result<HeldTypeName, ReadError> {
    if depth == 0 {
        return Err(ReadError::TooDeep);
    }
    let reader = Declarators {
        alloc,
        depth: depth - 1,
        constant,
        specifiers,
        declarator,
    };
    reader.type_name(cursor)
}

/// Specifiers (6.7).
#[cycle(inside)]
pub(crate) fn specifiers(
    alloc: Global,
    depth: usize,
    cursor: &mut Cursor<'_>,
) -> Result<HeldSpecifiers, ReadError> {
    if depth == 0 {
        return Err(ReadError::TooDeep);
    }
    cursor.stop_past_limit()?;
    let reader = Declarators {
        alloc,
        depth: depth - 1,
        constant,
        specifiers,
        declarator,
    };
    reader.specifiers(cursor)
}

/// A declarator (6.7.5, 6.7.6).
#[cycle(inside)]
pub(crate) fn declarator(
    alloc: Global,
    depth: usize,
    mode: Mode,
    cursor: &mut Cursor<'_>,
) -> Result<Declared, ReadError> {
    if depth == 0 {
        return Err(ReadError::TooDeep);
    }
    cursor.stop_past_limit()?;
    let reader = Declarators {
        alloc,
        depth: depth - 1,
        constant,
        specifiers,
        declarator,
    };
    reader.declarator(mode, cursor)
}
