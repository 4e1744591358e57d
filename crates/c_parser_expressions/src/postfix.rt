//! Primary and postfix expressions (ISO/IEC 9899:1999, 6.5.1, 6.5.2).
ghost use Rattle.c_parser_expressions.specs.Callable.{ReadsForms};

use crate::form::Form;
use crate::reader::Expressions;
use c_cursor::{Cursor, ReadError};
use c_kinds::kinds::{is_mark, name_in};
use c_postfix::{character, name, number, text};
use c_syntax::marks;
use c_tree::{HeldArguments, HeldExpr, HeldTypeName};
use std::alloc::Global;

impl<
    F: Fn(Global, usize, Form, &mut Cursor<'_>) -> Result<HeldExpr, ReadError>,
    G: Fn(Global, usize, &mut Cursor<'_>) -> Result<HeldTypeName, ReadError>,
> Expressions<F, G> {
    // An expression in parentheses, which make no node.
    fn parenthesised(&self, cursor: &mut Cursor<'_>) -> Result<HeldExpr, ReadError>
        requires { ReadsForms self.now.depth (F.pre self.now.inside) }
    {
        cursor.enter()?;
        cursor.take_mark(marks::LEFT_PARENTHESIS)?;
        let inside = self.inside(Form::Expression, cursor)?;
        cursor.take_closing(marks::RIGHT_PARENTHESIS)?;
        cursor.leave();
        Ok(inside)
    }

    // A primary expression (6.5.1).
    fn primary(&self, cursor: &mut Cursor<'_>) -> Result<HeldExpr, ReadError>
        requires { ReadsForms self.now.depth (F.pre self.now.inside) }
    {
        if cursor.sees_value_name() {
            return name(cursor);
        }
        if cursor.sees_number() {
            return number(cursor);
        }
        if cursor.sees_character() {
            return character(cursor);
        }
        if cursor.sees_text() {
            return text(self.alloc, cursor);
        }
        self.parenthesised(cursor)
    }

    // An expression up to the `]` that closes it.
    fn in_brackets(&self, cursor: &mut Cursor<'_>) -> Result<HeldExpr, ReadError>
        requires { ReadsForms self.now.depth (F.pre self.now.inside) }
    {
        cursor.enter()?;
        let inside = self.inside(Form::Expression, cursor)?;
        cursor.take_closing(marks::RIGHT_BRACKET)?;
        cursor.leave();
        Ok(inside)
    }

    // A subscript behind its operand (6.5.2.1).
    fn subscript(&self, left: HeldExpr, cursor: &mut Cursor<'_>) -> Result<HeldExpr, ReadError>
        requires { ReadsForms self.now.depth (F.pre self.now.inside) }
    {
        let token = cursor.take_operator(marks::LEFT_BRACKET)?;
        let inside = self.in_brackets(cursor)?;
        Ok(c_nodes::index(self.alloc, left, inside, token.place, token.start)?)
    }

    // An argument (6.5.2.2).
    fn argument(&self, cursor: &mut Cursor<'_>) -> Result<HeldExpr, ReadError>
        requires { ReadsForms self.now.depth (F.pre self.now.inside) }
    {
        cursor.begin_operand()?;
        let argument = self.inside(Form::Assignment, cursor)?;
        cursor.end_operand();
        Ok(argument)
    }

    // Arguments, of which there is one at least.
    fn some_arguments(&self, cursor: &mut Cursor<'_>) -> Result<HeldArguments, ReadError>
        requires { ReadsForms self.now.depth (F.pre self.now.inside) }
    {
        let mut found = HeldArguments::new(self.alloc);
        let first = self.argument(cursor)?;
        found.push(first)?;
        for _turn in 0..cursor.turns() {
            if !cursor.sees_mark(marks::COMMA) {
                return Ok(found);
            }
            cursor.take_mark(marks::COMMA)?;
            let argument = self.argument(cursor)?;
            found.push(argument)?;
        }
        Err(ReadError::Spent)
    }

    fn arguments(&self, cursor: &mut Cursor<'_>) -> Result<HeldArguments, ReadError>
        requires { ReadsForms self.now.depth (F.pre self.now.inside) }
    {
        if cursor.sees_mark(marks::RIGHT_PARENTHESIS) {
            return Ok(HeldArguments::new(self.alloc));
        }
        self.some_arguments(cursor)
    }

    // Arguments up to the `)` that closes them.
    fn in_parentheses(&self, cursor: &mut Cursor<'_>) -> Result<HeldArguments, ReadError>
        requires { ReadsForms self.now.depth (F.pre self.now.inside) }
    {
        cursor.enter()?;
        let found = self.arguments(cursor)?;
        cursor.take_closing(marks::RIGHT_PARENTHESIS)?;
        cursor.leave();
        Ok(found)
    }

    // A call behind its operand (6.5.2.2).
    fn call(&self, callee: HeldExpr, cursor: &mut Cursor<'_>) -> Result<HeldExpr, ReadError>
        requires { ReadsForms self.now.depth (F.pre self.now.inside) }
    {
        let token = cursor.take_operator(marks::LEFT_PARENTHESIS)?;
        let found = self.in_parentheses(cursor)?;
        Ok(c_nodes::call(self.alloc, callee, found, token.place, token.start)?)
    }

    // `.` and a name (6.5.2.3).
    fn member(&self, left: HeldExpr, cursor: &mut Cursor<'_>) -> Result<HeldExpr, ReadError> {
        let token = cursor.take_operator(marks::PERIOD)?;
        let name = name_in(&cursor.take_any_name()?.kind);
        Ok(c_nodes::member(self.alloc, left, name, token.place, token.start)?)
    }

    // `->` and a name (6.5.2.3).
    fn arrow(&self, left: HeldExpr, cursor: &mut Cursor<'_>) -> Result<HeldExpr, ReadError> {
        let token = cursor.take_operator(marks::ARROW)?;
        let name = name_in(&cursor.take_any_name()?.kind);
        Ok(c_nodes::arrow(self.alloc, left, name, token.place, token.start)?)
    }

    // `++` or `--` behind its operand (6.5.2.4).
    fn bump(&self, of: HeldExpr, cursor: &mut Cursor<'_>) -> Result<HeldExpr, ReadError> {
        let token = cursor.take_bump()?;
        let up = is_mark(marks::PLUS_PLUS, &token.kind);
        Ok(c_nodes::bump(self.alloc, up, false, of, token.place, token.start)?)
    }

    // One postfix operator behind its operand.
    fn operator(&self, left: HeldExpr, cursor: &mut Cursor<'_>) -> Result<HeldExpr, ReadError>
        requires { ReadsForms self.now.depth (F.pre self.now.inside) }
    {
        if cursor.sees_mark(marks::LEFT_BRACKET) {
            return self.subscript(left, cursor);
        }
        if cursor.sees_mark(marks::LEFT_PARENTHESIS) {
            return self.call(left, cursor);
        }
        if cursor.sees_mark(marks::PERIOD) {
            return self.member(left, cursor);
        }
        if cursor.sees_mark(marks::ARROW) {
            return self.arrow(left, cursor);
        }
        self.bump(left, cursor)
    }

    // All the postfix operators behind an operand, up to the first that passes a limit.
    fn operators(&self, mut left: HeldExpr, cursor: &mut Cursor<'_>) -> Result<HeldExpr, ReadError>
        requires { ReadsForms self.now.depth (F.pre self.now.inside) }
    {
        for _turn in 0..cursor.turns() {
            if !cursor.sees_operator() {
                return Ok(left);
            }
            cursor.stop_past_limit()?;
            left = self.operator(left, cursor)?;
        }
        Err(ReadError::Spent)
    }

    // A postfix expression.
    pub(crate) fn postfix(&self, cursor: &mut Cursor<'_>) -> Result<HeldExpr, ReadError>
        requires { ReadsForms self.now.depth (F.pre self.now.inside) }
    {
        let first = self.primary(cursor)?;
        self.operators(first, cursor)
    }
}
