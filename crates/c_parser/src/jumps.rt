//! Jumps (ISO/IEC 9899:1999, 6.8.6).

use crate::statements::maybe_expression;
use c_cursor::{Cursor, ReadError};
use c_syntax::{marks, words};
use c_tree::{HeldStatement, Lexeme};
use std::alloc::Global;

/// `break` (6.8.6.3)
pub(crate) fn break_out(
    first: &Lexeme,
    cursor: &mut Cursor<'_>,
) -> Result<HeldStatement, ReadError> {
    cursor.take_word(words::BREAK)?;
    cursor.take_mark(marks::SEMICOLON)?;
    Ok(c_nodes::break_out(first.place, first.start))
}

/// `continue` (6.8.6.2)
pub(crate) fn go_on(first: &Lexeme, cursor: &mut Cursor<'_>) -> Result<HeldStatement, ReadError> {
    cursor.take_word(words::CONTINUE)?;
    cursor.take_mark(marks::SEMICOLON)?;
    Ok(c_nodes::go_on(first.place, first.start))
}

/// `return` (6.8.6.4)
pub(crate) fn give_back(
    alloc: Global,
    first: &Lexeme,
    cursor: &mut Cursor<'_>,
) -> Result<HeldStatement, ReadError> {
    cursor.take_word(words::RETURN)?;
    let of = maybe_expression(alloc, marks::SEMICOLON, cursor)?;
    cursor.take_mark(marks::SEMICOLON)?;
    Ok(c_nodes::give_back(of, first.place, first.start))
}
