//! Unary expressions and casts (ISO/IEC 9899:1999, 6.5.3, 6.5.4).
ghost use Rattle.c_parser_expressions.specs.Callable.{ReadsForms, ReadsNames};

use crate::form::Form;
use crate::nodes;
use crate::reader::Expressions;
use c_cursor::{Cursor, ReadError};
use c_kinds::kinds::is_mark;
use c_syntax::{marks, words};
use c_tree::{HeldExpr, HeldTypeName};
use std::alloc::Global;
use sv_base::faults;

impl<
    F: Fn(Global, usize, Form, &mut Cursor<'_>) -> Result<HeldExpr, ReadError>,
    G: Fn(Global, usize, &mut Cursor<'_>) -> Result<HeldTypeName, ReadError>,
> Expressions<F, G> {
    // `++` or `--` before its operand (6.5.3.1).
    fn bump_before(&self, cursor: &mut Cursor<'_>) -> Result<HeldExpr, ReadError>
        requires { ReadsForms self.now.depth (F.pre self.now.inside) }
    {
        cursor.enter()?;
        let token = cursor.take_bump_before()?;
        let of = self.inside(Form::Unary, cursor)?;
        cursor.leave();
        let up = is_mark(marks::PLUS_PLUS, &token.kind);
        Ok(c_nodes::bump(self.alloc, up, true, of, token.place, token.start)?)
    }

    // Another unary operator before its operand (6.5.3.2, 6.5.3.3).
    fn unary_operator(&self, cursor: &mut Cursor<'_>) -> Result<HeldExpr, ReadError>
        requires { ReadsForms self.now.depth (F.pre self.now.inside) }
    {
        cursor.enter()?;
        let token = cursor.take_unary_operator()?;
        let of = self.inside(Form::Cast, cursor)?;
        cursor.leave();
        cursor.note_unary();
        Ok(nodes::applied(self.alloc, token, of)?)
    }

    // A type name in parentheses. A `{` behind it would begin a compound literal.
    fn type_in_parentheses(&self, cursor: &mut Cursor<'_>) -> Result<HeldTypeName, ReadError>
        requires { ReadsNames self.now.depth (G.pre self.now.type_name) }
    {
        cursor.take_mark(marks::LEFT_PARENTHESIS)?;
        let name = self.type_name(cursor)?;
        cursor.take_mark(marks::RIGHT_PARENTHESIS)?;
        if cursor.sees_mark(marks::LEFT_BRACE) {
            cursor.show(faults::COMPOUND_LITERAL);
        }
        Ok(name)
    }

    // Whether a parenthesis comes that holds a type name.
    fn sees_type(cursor: &Cursor<'_>) -> bool {
        cursor.sees_mark(marks::LEFT_PARENTHESIS) && cursor.sees_specifiers_behind()
    }

    // `sizeof` (6.5.3.4).
    fn size_of(&self, cursor: &mut Cursor<'_>) -> Result<HeldExpr, ReadError>
        requires inside { ReadsForms self.now.depth (F.pre self.now.inside) }
        requires names { ReadsNames self.now.depth (G.pre self.now.type_name) }
    {
        cursor.enter()?;
        let token = cursor.take_word(words::SIZEOF)?;
        if Self::sees_type(cursor) {
            let name = self.type_in_parentheses(cursor)?;
            cursor.leave();
            cursor.note_unary();
            return Ok(c_nodes::size_of_name(name, token.place, token.start));
        }
        let of = self.inside(Form::Unary, cursor)?;
        cursor.leave();
        Ok(c_nodes::size_of(self.alloc, of, token.place, token.start)?)
    }

    // A unary expression.
    pub(crate) fn unary(&self, cursor: &mut Cursor<'_>) -> Result<HeldExpr, ReadError>
        requires inside { ReadsForms self.now.depth (F.pre self.now.inside) }
        requires names { ReadsNames self.now.depth (G.pre self.now.type_name) }
    {
        if cursor.sees_bump() {
            return self.bump_before(cursor);
        }
        if cursor.sees_unary_operator() {
            return self.unary_operator(cursor);
        }
        if cursor.sees_word(words::SIZEOF) {
            return self.size_of(cursor);
        }
        self.postfix(cursor)
    }

    // A type in parentheses before its operand.
    fn converted(&self, cursor: &mut Cursor<'_>) -> Result<HeldExpr, ReadError>
        requires inside { ReadsForms self.now.depth (F.pre self.now.inside) }
        requires names { ReadsNames self.now.depth (G.pre self.now.type_name) }
    {
        let token = cursor.look()?;
        cursor.enter()?;
        let name = self.type_in_parentheses(cursor)?;
        let of = self.inside(Form::Cast, cursor)?;
        cursor.leave();
        cursor.note_no_unary();
        Ok(c_nodes::cast(self.alloc, name, of, token.place, token.start)?)
    }

    // A cast expression. The token behind a `(` tells a type from an expression.
    pub(crate) fn cast(&self, cursor: &mut Cursor<'_>) -> Result<HeldExpr, ReadError>
        requires inside { ReadsForms self.now.depth (F.pre self.now.inside) }
        requires names { ReadsNames self.now.depth (G.pre self.now.type_name) }
    {
        if Self::sees_type(cursor) {
            return self.converted(cursor);
        }
        self.unary(cursor)
    }
}
