//! Iteration statements, which are blocks (ISO/IEC 9899:1999, 6.8.5).
ghost use Rattle.c_parser.specs.Callable.{Reads};

use crate::declarations::declaration;
use crate::inside::{MOST_CALLS, expression};
use crate::statements::{Statements, condition, maybe_expression};
use c_cursor::{Cursor, ReadError};
use c_parser_expressions::Form;
use c_syntax::{marks, words};
use c_tree::{HeldExpr, HeldFirst, HeldStatement, Lexeme};
use std::alloc::Global;

/// What stands first in the head of a `for`, up to its `;` (6.8.5.3).
fn first_in_head(alloc: Global, cursor: &mut Cursor<'_>) -> Result<HeldFirst, ReadError> {
    if cursor.sees_mark(marks::SEMICOLON) {
        cursor.take_mark(marks::SEMICOLON)?;
        return Ok(c_nodes::first_nothing());
    }
    if cursor.sees_specifiers() {
        let declaration = declaration(alloc, cursor)?;
        return Ok(c_nodes::first_declaration(declaration));
    }
    let value = expression(alloc, MOST_CALLS, Form::Expression, cursor)?;
    cursor.take_mark(marks::SEMICOLON)?;
    Ok(c_nodes::first_expression(value))
}

/// The test of a `for`, up to its `;`.
fn test_in_head(alloc: Global, cursor: &mut Cursor<'_>) -> Result<Option<HeldExpr>, ReadError> {
    let test = maybe_expression(alloc, marks::SEMICOLON, cursor)?;
    cursor.take_mark(marks::SEMICOLON)?;
    Ok(test)
}

/// What a `for` does behind each turn, up to the `)` of its head.
fn last_in_head(alloc: Global, cursor: &mut Cursor<'_>) -> Result<Option<HeldExpr>, ReadError> {
    let last = maybe_expression(alloc, marks::RIGHT_PARENTHESIS, cursor)?;
    cursor.take_mark(marks::RIGHT_PARENTHESIS)?;
    Ok(last)
}

impl<F: Fn(Global, usize, &mut Cursor<'_>) -> Result<HeldStatement, ReadError>> Statements<F> {
    /// A `while` (6.8.5.1).
    pub(crate) fn while_loop(
        &self,
        first: &Lexeme,
        cursor: &mut Cursor<'_>,
    ) -> Result<HeldStatement, ReadError>
        requires { Reads self.now.depth (F.pre self.now.inside) }
    {
        cursor.take_loop_word(words::WHILE)?;
        cursor.open_scope()?;
        let test = condition(self.alloc, cursor)?;
        let body = self.substatement(cursor)?;
        cursor.close_scope();
        cursor.leave_loop();
        Ok(c_nodes::while_loop(self.alloc, test, body, first.place, first.start)?)
    }

    // The `while` behind the body of a `do`.
    fn behind_body(&self, cursor: &mut Cursor<'_>) -> Result<HeldExpr, ReadError> {
        cursor.take_word(words::WHILE)?;
        let test = condition(self.alloc, cursor)?;
        cursor.take_mark(marks::SEMICOLON)?;
        Ok(test)
    }

    /// A `do` (6.8.5.2).
    pub(crate) fn do_while(
        &self,
        first: &Lexeme,
        cursor: &mut Cursor<'_>,
    ) -> Result<HeldStatement, ReadError>
        requires { Reads self.now.depth (F.pre self.now.inside) }
    {
        cursor.take_loop_word(words::DO)?;
        cursor.open_scope()?;
        let body = self.substatement(cursor)?;
        cursor.leave_loop();
        let test = self.behind_body(cursor)?;
        cursor.close_scope();
        Ok(c_nodes::do_while(self.alloc, body, test, first.place, first.start)?)
    }

    /// A `for` (6.8.5.3).
    pub(crate) fn for_loop(
        &self,
        first: &Lexeme,
        cursor: &mut Cursor<'_>,
    ) -> Result<HeldStatement, ReadError>
        requires { Reads self.now.depth (F.pre self.now.inside) }
    {
        cursor.take_loop_word(words::FOR)?;
        cursor.open_scope()?;
        cursor.take_mark(marks::LEFT_PARENTHESIS)?;
        let head = first_in_head(self.alloc, cursor)?;
        let test = test_in_head(self.alloc, cursor)?;
        let last = last_in_head(self.alloc, cursor)?;
        let body = self.substatement(cursor)?;
        cursor.close_scope();
        cursor.leave_loop();
        Ok(c_nodes::for_loop(self.alloc, head, test, last, body, first.place, first.start)?)
    }
}
