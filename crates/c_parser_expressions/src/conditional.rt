//! The conditional operator, assignment and the comma operator (ISO/IEC 9899:1999, 6.5.15 to 6.5.17).
ghost use Rattle.c_parser_expressions.specs.Callable.{ReadsForms, ReadsNames};

use crate::form::Form;
use crate::nodes;
use crate::reader::Expressions;
use c_cursor::{Cursor, ReadError};
use c_syntax::marks;
use c_tree::{HeldExpr, HeldTypeName};
use std::alloc::Global;

/// The level of all binary operators.
const ALL_LEVELS: u8 = 10;

impl<
    F: Fn(Global, usize, Form, &mut Cursor<'_>) -> Result<HeldExpr, ReadError>,
    G: Fn(Global, usize, &mut Cursor<'_>) -> Result<HeldTypeName, ReadError>,
> Expressions<F, G> {
    // What is chosen where the test holds, up to its `:`.
    fn first_choice(&self, cursor: &mut Cursor<'_>) -> Result<HeldExpr, ReadError>
        requires { ReadsForms self.now.depth (F.pre self.now.inside) }
    {
        let left = self.inside(Form::Expression, cursor)?;
        cursor.take_mark(marks::COLON)?;
        Ok(left)
    }

    // A `?` behind its test, and the choices.
    fn choice(&self, test: HeldExpr, cursor: &mut Cursor<'_>) -> Result<HeldExpr, ReadError>
        requires { ReadsForms self.now.depth (F.pre self.now.inside) }
    {
        let token = cursor.take_operator(marks::QUESTION)?;
        cursor.enter()?;
        let left = self.first_choice(cursor)?;
        let right = self.inside(Form::Constant, cursor)?;
        cursor.leave();
        cursor.note_no_unary();
        Ok(c_nodes::choose(self.alloc, test, left, right, token.place, token.start)?)
    }

    // A conditional expression.
    fn conditional(&self, cursor: &mut Cursor<'_>) -> Result<HeldExpr, ReadError>
        requires inside { ReadsForms self.now.depth (F.pre self.now.inside) }
        requires names { ReadsNames self.now.depth (G.pre self.now.type_name) }
    {
        let test = self.level(ALL_LEVELS, cursor)?;
        if !cursor.sees_mark(marks::QUESTION) {
            return Ok(test);
        }
        self.choice(test, cursor)
    }

    // A constant expression (6.6).
    pub(crate) fn constant(&self, cursor: &mut Cursor<'_>) -> Result<HeldExpr, ReadError>
        requires inside { ReadsForms self.now.depth (F.pre self.now.inside) }
        requires names { ReadsNames self.now.depth (G.pre self.now.type_name) }
    {
        cursor.begin_operand()?;
        let value = self.conditional(cursor)?;
        cursor.end_operand();
        Ok(value)
    }

    // An assignment operator behind its operand, and the value.
    fn assigned(&self, left: HeldExpr, cursor: &mut Cursor<'_>) -> Result<HeldExpr, ReadError>
        requires { ReadsForms self.now.depth (F.pre self.now.inside) }
    {
        let token = cursor.take_assignment_operator()?;
        cursor.enter()?;
        let value = self.inside(Form::Assignment, cursor)?;
        cursor.leave();
        Ok(nodes::assigned(self.alloc, token, left, value)?)
    }

    // An assignment expression.
    pub(crate) fn assignment(&self, cursor: &mut Cursor<'_>) -> Result<HeldExpr, ReadError>
        requires inside { ReadsForms self.now.depth (F.pre self.now.inside) }
        requires names { ReadsNames self.now.depth (G.pre self.now.type_name) }
    {
        let left = self.conditional(cursor)?;
        if !cursor.sees_assignment_operator() {
            return Ok(left);
        }
        self.assigned(left, cursor)
    }

    // A comma behind its operand, and the operand to its right.
    fn comma(&self, left: HeldExpr, cursor: &mut Cursor<'_>) -> Result<HeldExpr, ReadError>
        requires inside { ReadsForms self.now.depth (F.pre self.now.inside) }
        requires names { ReadsNames self.now.depth (G.pre self.now.type_name) }
    {
        let token = cursor.take_operator(marks::COMMA)?;
        cursor.enter()?;
        let right = self.assignment(cursor)?;
        cursor.leave();
        Ok(c_nodes::comma(self.alloc, left, right, token.place, token.start)?)
    }

    // All the commas behind an operand, up to the first that passes a limit.
    fn more_expressions(
        &self,
        mut left: HeldExpr,
        cursor: &mut Cursor<'_>,
    ) -> Result<HeldExpr, ReadError>
        requires inside { ReadsForms self.now.depth (F.pre self.now.inside) }
        requires names { ReadsNames self.now.depth (G.pre self.now.type_name) }
    {
        for _turn in 0..cursor.turns() {
            if !cursor.sees_mark(marks::COMMA) {
                return Ok(left);
            }
            cursor.stop_past_limit()?;
            left = self.comma(left, cursor)?;
        }
        Err(ReadError::Spent)
    }

    // An expression.
    pub(crate) fn expression(&self, cursor: &mut Cursor<'_>) -> Result<HeldExpr, ReadError>
        requires inside { ReadsForms self.now.depth (F.pre self.now.inside) }
        requires names { ReadsNames self.now.depth (G.pre self.now.type_name) }
    {
        cursor.begin_operand()?;
        let first = self.assignment(cursor)?;
        let whole = self.more_expressions(first, cursor)?;
        cursor.end_operand();
        Ok(whole)
    }
}
