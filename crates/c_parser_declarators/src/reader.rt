ghost use Rattle.c_parser_declarators.specs.Callable.{Reads, ReadsModes};

use crate::declared::Declared;
use crate::mode::Mode;
use c_cursor::{Cursor, ReadError};
use c_tree::{HeldExpr, HeldSpecifiers};
use std::alloc::Global;

/// Reads specifiers, declarators and type names, each from its first token, and no more than it. The answer is `Wrong` at the first token with
/// which what is read does not go on, `TooDeep` where a limit of nesting was passed or no depth is left, and `NoMemory`.
#[derive(Clone, Copy)]
pub struct Declarators<E, S, D> {
    pub alloc: Global,
    /// How many readers may still call one another inside.
    pub depth: usize,
    /// Reads a constant expression (ISO/IEC 9899:1999, 6.6).
    pub constant: E,
    /// Reads the specifiers of a member or a parameter (6.7).
    pub specifiers: S,
    /// Reads the declarator of a parameter, or one in parentheses (6.7.5).
    pub declarator: D,
}

impl<
    E: Fn(Global, usize, &mut Cursor<'_>) -> Result<HeldExpr, ReadError>,
    S: Fn(Global, usize, &mut Cursor<'_>) -> Result<HeldSpecifiers, ReadError>,
    D: Fn(Global, usize, Mode, &mut Cursor<'_>) -> Result<Declared, ReadError>,
> Declarators<E, S, D> {
    // A constant expression that stands inside.
    pub(crate) fn constant(&self, cursor: &mut Cursor<'_>) -> Result<HeldExpr, ReadError>
        requires { Reads self.now.depth (E.pre self.now.constant) }
    {
        (self.constant)(self.alloc, self.depth, cursor)
    }

    // The specifiers of a member or a parameter.
    pub(crate) fn inner_specifiers(
        &self,
        cursor: &mut Cursor<'_>,
    ) -> Result<HeldSpecifiers, ReadError>
        requires { Reads self.now.depth (S.pre self.now.specifiers) }
    {
        (self.specifiers)(self.alloc, self.depth, cursor)
    }

    // A declarator that stands inside another.
    pub(crate) fn inner_declarator(
        &self,
        mode: Mode,
        cursor: &mut Cursor<'_>,
    ) -> Result<Declared, ReadError>
        requires { ReadsModes self.now.depth (D.pre self.now.declarator) }
    {
        (self.declarator)(self.alloc, self.depth, mode, cursor)
    }
}
