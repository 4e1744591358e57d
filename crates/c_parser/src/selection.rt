//! Selection statements, which are blocks (ISO/IEC 9899:1999, 6.8.4).
ghost use Rattle.c_parser.specs.Callable.{Reads};

use crate::statements::{Statements, condition};
use c_cursor::{Cursor, ReadError};
use c_syntax::words;
use c_tree::{HeldStatement, Lexeme};
use std::alloc::Global;

impl<F: Fn(Global, usize, &mut Cursor<'_>) -> Result<HeldStatement, ReadError>> Statements<F> {
    // The `else` of an `if`, where it has one.
    fn other(&self, cursor: &mut Cursor<'_>) -> Result<Option<HeldStatement>, ReadError>
        requires { Reads self.now.depth (F.pre self.now.inside) }
    {
        if !cursor.sees_else() {
            cursor.leave_dangling();
            return Ok(None);
        }
        cursor.take_else()?;
        let other = self.substatement(cursor)?;
        Ok(Some(other))
    }

    /// An `if` (6.8.4.1).
    pub(crate) fn selected(
        &self,
        first: &Lexeme,
        cursor: &mut Cursor<'_>,
    ) -> Result<HeldStatement, ReadError>
        requires { Reads self.now.depth (F.pre self.now.inside) }
    {
        cursor.take_word(words::IF)?;
        cursor.open_scope()?;
        let test = condition(self.alloc, cursor)?;
        let body = self.substatement(cursor)?;
        let other = self.other(cursor)?;
        cursor.close_scope();
        Ok(c_nodes::if_else(self.alloc, test, body, other, first.place, first.start)?)
    }

    // The body of a `switch`, a compound statement.
    fn switch_body(&self, cursor: &mut Cursor<'_>) -> Result<HeldStatement, ReadError>
        requires { Reads self.now.depth (F.pre self.now.inside) }
    {
        let first = cursor.look()?;
        cursor.open_scope()?;
        cursor.enter()?;
        let body = self.compound(first, cursor)?;
        cursor.leave();
        cursor.close_scope();
        Ok(body)
    }

    /// A `switch` (6.8.4.2).
    pub(crate) fn switch(
        &self,
        first: &Lexeme,
        cursor: &mut Cursor<'_>,
    ) -> Result<HeldStatement, ReadError>
        requires { Reads self.now.depth (F.pre self.now.inside) }
    {
        cursor.take_word(words::SWITCH)?;
        cursor.open_scope()?;
        let of = condition(self.alloc, cursor)?;
        let body = self.switch_body(cursor)?;
        cursor.close_scope();
        Ok(c_nodes::switch(self.alloc, of, body, first.place, first.start)?)
    }
}
