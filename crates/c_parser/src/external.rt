//! Files (ISO/IEC 9899:1999, 6.9).

use crate::declarations::{behind_declarator, head, visible_declarator, without_declarators};
use crate::statements::body;
use c_cursor::{Cursor, ReadError};
use c_syntax::marks;
use c_tree::{HeldDeclarator, HeldItems, HeldSpecifiers};
use std::alloc::Global;

/// The body of a function definition (6.9.1), which goes on with the scope of its parameters.
fn function(
    alloc: Global,
    found: &mut HeldItems,
    head: HeldSpecifiers,
    declarator: HeldDeclarator,
    cursor: &mut Cursor<'_>,
) -> Result<(), ReadError> {
    cursor.open_body()?;
    let first = cursor.look()?;
    let body = body(alloc, first, cursor)?;
    cursor.close_scope();
    cursor.finish();
    Ok(found.push_function(head, declarator, body)?)
}

/// What stands behind the specifiers of an external declaration, which were read.
fn behind_specifiers(
    alloc: Global,
    found: &mut HeldItems,
    head: HeldSpecifiers,
    cursor: &mut Cursor<'_>,
) -> Result<(), ReadError> {
    if cursor.sees_mark(marks::SEMICOLON) {
        let declaration = without_declarators(alloc, head, cursor)?;
        return Ok(found.push_declaration(declaration)?);
    }
    let first = visible_declarator(alloc, cursor)?;
    if cursor.sees_mark(marks::LEFT_BRACE) {
        return function(alloc, found, head, first, cursor);
    }
    let declaration = behind_declarator(alloc, head, first, cursor)?;
    Ok(found.push_declaration(declaration)?)
}

/// An external declaration, or a lone `;`, which declares nothing.
fn external(
    alloc: Global,
    found: &mut HeldItems,
    cursor: &mut Cursor<'_>,
) -> Result<(), ReadError> {
    if cursor.sees_mark(marks::SEMICOLON) {
        cursor.take_mark(marks::SEMICOLON)?;
        return Ok(());
    }
    cursor.stop_past_limit()?;
    let head = head(alloc, cursor)?;
    behind_specifiers(alloc, found, head, cursor)
}

/// A file.
pub(crate) fn file(alloc: Global, cursor: &mut Cursor<'_>) -> Result<HeldItems, ReadError> {
    let mut found = HeldItems::new(alloc);
    for _turn in 0..cursor.turns() {
        if cursor.sees_end() {
            cursor.take_end()?;
            return Ok(found);
        }
        external(alloc, &mut found, cursor)?;
    }
    Err(ReadError::Spent)
}
