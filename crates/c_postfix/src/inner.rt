ghost use Rattle.std.specs.Prelude.{◌≡◌};
ghost use Rattle.c_postfix.specs.Runs.{Runs};
ghost use Rattle.c_cursor.specs.Parsers.{Reads};

use c_cursor::{Cursor, ReadError};
use c_tree::HeldExpr;
use std::alloc::Global;
use std::marker::PhantomData;

/// What the functions that read the expressions inside compute, as parsers for each depth.
pub trait Inner {
    ghost use Rattle.std.specs.Prelude.{ℕ};
    ghost use Rattle.c_tree.specs.declared.expression.Expr.{Expr};
    ghost use Rattle.c_cursor.specs.Parsers.{Parser};

    ghost inside: { ℕ → Parser Expr };

    ghost argument: { ℕ → Parser Expr };
}

/// Reads primary and postfix expressions (ISO/IEC 9899:1999, 6.5.1, 6.5.2).
#[derive(Clone, Copy)]
pub struct Postfix<S, F, G> {
    pub alloc: Global,
    /// How deep the expressions inside may still nest.
    pub depth: usize,
    /// Reads an expression (6.5.17).
    pub inside: F,
    /// Reads an argument, an assignment expression (6.5.16).
    pub argument: G,
    pub means: PhantomData<S>,
}

impl<
    S: Inner,
    F: Fn(Global, usize, &mut Cursor<'_>) -> Result<HeldExpr, ReadError>,
    G: Fn(Global, usize, &mut Cursor<'_>) -> Result<HeldExpr, ReadError>,
> Postfix<S, F, G> {
    // An expression that stands inside.
    pub(crate) fn inside(&self, cursor: &mut Cursor<'_>) -> Result<HeldExpr, ReadError>
        requires { Runs S.inside self.now.depth (F.pre self.now.inside) (F.post self.now.inside) }
        ensures { Reads (S.inside self.now.depth cursor.old) result cursor.new }
    {
        (self.inside)(self.alloc, self.depth, cursor)
    }

    // An argument of a call.
    pub(crate) fn argument(&self, cursor: &mut Cursor<'_>) -> Result<HeldExpr, ReadError>
        requires { Runs S.argument self.now.depth (G.pre self.now.argument) (G.post self.now.argument) }
        ensures { Reads (S.argument self.now.depth cursor.old) result cursor.new }
    {
        (self.argument)(self.alloc, self.depth, cursor)
    }
}
