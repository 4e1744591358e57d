//! Declarations (ISO/IEC 9899:1999, 6.7).

use crate::initialisers::initialiser;
use crate::inside::{MOST_CALLS, declarator, specifiers};
use c_cursor::{Cursor, ReadError};
use c_parser_declarators::{Declared, Mode};
use c_syntax::marks;
use c_tree::{
    HeldDeclaration, HeldDeclarator, HeldInitDeclarators, HeldInitialiser, HeldSpecifiers,
};
use std::alloc::Global;

/// A declarator, whose name is visible from its end (6.2.1).
pub(crate) fn visible_declarator(
    alloc: Global,
    cursor: &mut Cursor<'_>,
) -> Result<HeldDeclarator, ReadError> {
    let Declared { tree, name: _ } = declarator(alloc, MOST_CALLS, Mode::Concrete, cursor)?;
    cursor.declare()?;
    Ok(tree)
}

/// The initialiser behind a declarator, where there is one.
fn initial(alloc: Global, cursor: &mut Cursor<'_>) -> Result<Option<HeldInitialiser>, ReadError> {
    if !cursor.sees_mark(marks::EQUAL) {
        return Ok(None);
    }
    cursor.take_mark(marks::EQUAL)?;
    Ok(Some(initialiser(alloc, MOST_CALLS, cursor)?))
}

/// A declarator that was read, with what stands behind it.
fn push(
    alloc: Global,
    found: &mut HeldInitDeclarators,
    tree: HeldDeclarator,
    cursor: &mut Cursor<'_>,
) -> Result<(), ReadError> {
    let initial = initial(alloc, cursor)?;
    Ok(found.push(tree, initial)?)
}

/// The declarators of a declaration, of which the first was read.
fn declarators(
    alloc: Global,
    first: HeldDeclarator,
    cursor: &mut Cursor<'_>,
) -> Result<HeldInitDeclarators, ReadError> {
    let mut found = HeldInitDeclarators::new(alloc);
    push(alloc, &mut found, first, cursor)?;
    for _turn in 0..cursor.turns() {
        if !cursor.sees_mark(marks::COMMA) {
            return Ok(found);
        }
        cursor.take_mark(marks::COMMA)?;
        cursor.end_specifiers();
        let tree = visible_declarator(alloc, cursor)?;
        push(alloc, &mut found, tree, cursor)?;
    }
    Err(ReadError::Spent)
}

/// A declaration of whose declarators the first was read.
pub(crate) fn behind_declarator(
    alloc: Global,
    head: HeldSpecifiers,
    first: HeldDeclarator,
    cursor: &mut Cursor<'_>,
) -> Result<HeldDeclaration, ReadError> {
    let parts = declarators(alloc, first, cursor)?;
    cursor.take_mark(marks::SEMICOLON)?;
    cursor.finish();
    Ok(c_nodes::declaration(head, parts))
}

/// A declaration without declarators, whose specifiers were read.
pub(crate) fn without_declarators(
    alloc: Global,
    head: HeldSpecifiers,
    cursor: &mut Cursor<'_>,
) -> Result<HeldDeclaration, ReadError> {
    cursor.take_mark(marks::SEMICOLON)?;
    cursor.finish();
    Ok(c_nodes::declaration(head, HeldInitDeclarators::new(alloc)))
}

/// The specifiers with which a declaration begins.
pub(crate) fn head(alloc: Global, cursor: &mut Cursor<'_>) -> Result<HeldSpecifiers, ReadError> {
    cursor.begin()?;
    specifiers(alloc, MOST_CALLS, cursor)
}

/// A declaration.
pub(crate) fn declaration(
    alloc: Global,
    cursor: &mut Cursor<'_>,
) -> Result<HeldDeclaration, ReadError> {
    let head = head(alloc, cursor)?;
    if cursor.sees_mark(marks::SEMICOLON) {
        return without_declarators(alloc, head, cursor);
    }
    let first = visible_declarator(alloc, cursor)?;
    behind_declarator(alloc, head, first, cursor)
}
