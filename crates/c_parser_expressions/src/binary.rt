//! Binary operators, from the tightest level to the loosest (ISO/IEC 9899:1999, 6.5.5 to 6.5.14).
ghost use Rattle.c_parser_expressions.specs.Callable.{ReadsForms, ReadsNames};

use crate::form::Form;
use crate::nodes;
use crate::reader::Expressions;
use c_cursor::{Cursor, ReadError};
use c_tree::{HeldExpr, HeldTypeName};
use std::alloc::Global;

impl<
    F: Fn(Global, usize, Form, &mut Cursor<'_>) -> Result<HeldExpr, ReadError>,
    G: Fn(Global, usize, &mut Cursor<'_>) -> Result<HeldTypeName, ReadError>,
> Expressions<F, G> {
    // An operator of the level behind its operand, and the operand to its right.
    fn joined(
        &self,
        level: u8,
        left: HeldExpr,
        cursor: &mut Cursor<'_>,
    ) -> Result<HeldExpr, ReadError>
        requires { ReadsForms self.now.depth (F.pre self.now.inside) }
    {
        let token = cursor.take_binary_operator(level)?;
        cursor.enter()?;
        let right = self.inside(Form::Level(level), cursor)?;
        cursor.leave();
        cursor.note_no_unary();
        Ok(nodes::joined(self.alloc, token, left, right)?)
    }

    // All the operators of the level behind an operand, up to the first that passes a limit.
    fn more_operands(
        &self,
        level: u8,
        mut left: HeldExpr,
        cursor: &mut Cursor<'_>,
    ) -> Result<HeldExpr, ReadError>
        requires { ReadsForms self.now.depth (F.pre self.now.inside) }
    {
        for _turn in 0..cursor.turns() {
            if !cursor.sees_binary_operator(level) {
                return Ok(left);
            }
            cursor.stop_past_limit()?;
            left = self.joined(level, left, cursor)?;
        }
        Err(ReadError::Spent)
    }

    // The operands of the operators that bind tighter than the level.
    pub(crate) fn level(&self, end: u8, cursor: &mut Cursor<'_>) -> Result<HeldExpr, ReadError>
        requires inside { ReadsForms self.now.depth (F.pre self.now.inside) }
        requires names { ReadsNames self.now.depth (G.pre self.now.type_name) }
    {
        let mut left = self.cast(cursor)?;
        for level in 0..end {
            left = self.more_operands(level, left, cursor)?;
        }
        Ok(left)
    }
}
