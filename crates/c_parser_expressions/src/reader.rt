ghost use Rattle.c_parser_expressions.specs.Callable.{ReadsForms, ReadsNames};

use crate::form::Form;
use c_cursor::{Cursor, ReadError};
use c_tree::{HeldExpr, HeldTypeName};
use std::alloc::Global;

/// Reads expressions. A form is read from its first token, and no more than it. The answer is `Wrong` at the first token with which the form
/// does not go on, `TooDeep` where a limit of nesting was passed or no depth is left, and `NoMemory`.
#[derive(Clone, Copy)]
pub struct Expressions<F, G> {
    pub alloc: Global,
    /// How many readers may still call one another inside.
    pub depth: usize,
    /// Reads an expression of a form inside.
    pub inside: F,
    /// Reads a type name (ISO/IEC 9899:1999, 6.7.6).
    pub type_name: G,
}

impl<
    F: Fn(Global, usize, Form, &mut Cursor<'_>) -> Result<HeldExpr, ReadError>,
    G: Fn(Global, usize, &mut Cursor<'_>) -> Result<HeldTypeName, ReadError>,
> Expressions<F, G> {
    /// An expression of the form.
    pub fn read(&self, form: Form, cursor: &mut Cursor<'_>) -> Result<HeldExpr, ReadError>
        requires inside { ReadsForms self.now.depth (F.pre self.now.inside) }
        requires names { ReadsNames self.now.depth (G.pre self.now.type_name) }
    {
        match form {
            Form::Expression => self.expression(cursor),
            Form::Assignment => self.assignment(cursor),
            Form::Constant => self.constant(cursor),
            Form::Level(level) => self.level(level, cursor),
            Form::Cast => self.cast(cursor),
            Form::Unary => self.unary(cursor),
        }
    }

    // An expression of a form that stands inside another.
    pub(crate) fn inside(&self, form: Form, cursor: &mut Cursor<'_>) -> Result<HeldExpr, ReadError>
        requires { ReadsForms self.now.depth (F.pre self.now.inside) }
    {
        (self.inside)(self.alloc, self.depth, form, cursor)
    }

    // A type name.
    pub(crate) fn type_name(&self, cursor: &mut Cursor<'_>) -> Result<HeldTypeName, ReadError>
        requires { ReadsNames self.now.depth (G.pre self.now.type_name) }
    {
        (self.type_name)(self.alloc, self.depth, cursor)
    }
}
