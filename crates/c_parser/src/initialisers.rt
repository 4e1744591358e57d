//! Initialisers, each a node of the nesting (ISO/IEC 9899:1999, 6.7.8).
ghost use Rattle.c_parser.specs.Callable.{Reads};

use crate::inside::{MOST_CALLS, constant, expression};
use c_cursor::{Cursor, ReadError};
use c_kinds::kinds::name_in;
use c_parser_expressions::Form;
use c_syntax::marks;
use c_tree::{HeldDesignators, HeldEntries, HeldInitialiser};
use std::alloc::Global;

/// Reads initialisers over a function that reads those inside.
#[derive(Clone, Copy)]
pub(crate) struct Initialisers<F> {
    alloc: Global,
    depth: usize,
    inside: F,
}

/// Whether a designator comes next.
fn sees_designator(cursor: &Cursor<'_>) -> bool {
    cursor.sees_mark(marks::LEFT_BRACKET) || cursor.sees_mark(marks::PERIOD)
}

/// An element of an array.
fn element(
    alloc: Global,
    found: &mut HeldDesignators,
    cursor: &mut Cursor<'_>,
) -> Result<(), ReadError> {
    cursor.take_mark(marks::LEFT_BRACKET)?;
    let index = constant(alloc, MOST_CALLS, cursor)?;
    cursor.take_mark(marks::RIGHT_BRACKET)?;
    Ok(found.push_element(index)?)
}

/// A member.
fn member(found: &mut HeldDesignators, cursor: &mut Cursor<'_>) -> Result<(), ReadError> {
    cursor.take_mark(marks::PERIOD)?;
    let token = cursor.take_tag()?;
    Ok(found.push_member(name_in(&token.kind), token.place, token.start)?)
}

/// A designator.
fn designator(
    alloc: Global,
    found: &mut HeldDesignators,
    cursor: &mut Cursor<'_>,
) -> Result<(), ReadError> {
    if cursor.sees_mark(marks::LEFT_BRACKET) {
        return element(alloc, found, cursor);
    }
    member(found, cursor)
}

/// The designators of an entry, up to the `=` behind them, where it has some.
fn designators(alloc: Global, cursor: &mut Cursor<'_>) -> Result<HeldDesignators, ReadError> {
    let mut found = HeldDesignators::new(alloc);
    if !sees_designator(cursor) {
        return Ok(found);
    }
    for _turn in 0..cursor.turns() {
        if !sees_designator(cursor) {
            cursor.take_mark(marks::EQUAL)?;
            return Ok(found);
        }
        designator(alloc, &mut found, cursor)?;
    }
    Err(ReadError::Spent)
}

impl<F: Fn(Global, usize, &mut Cursor<'_>) -> Result<HeldInitialiser, ReadError>> Initialisers<F> {
    fn inside(&self, cursor: &mut Cursor<'_>) -> Result<HeldInitialiser, ReadError>
        requires { Reads self.now.depth (F.pre self.now.inside) }
    {
        (self.inside)(self.alloc, self.depth, cursor)
    }

    // An entry of a list.
    fn entry(&self, found: &mut HeldEntries, cursor: &mut Cursor<'_>) -> Result<(), ReadError>
        requires { Reads self.now.depth (F.pre self.now.inside) }
    {
        let path = designators(self.alloc, cursor)?;
        let value = self.inside(cursor)?;
        Ok(found.push(path, value)?)
    }

    // The entries of a list, of which there is one at least, with a comma behind the last or none.
    fn entries(&self, cursor: &mut Cursor<'_>) -> Result<HeldEntries, ReadError>
        requires { Reads self.now.depth (F.pre self.now.inside) }
    {
        let mut found = HeldEntries::new(self.alloc);
        self.entry(&mut found, cursor)?;
        for _turn in 0..cursor.turns() {
            if !cursor.sees_mark(marks::COMMA) {
                return Ok(found);
            }
            cursor.take_mark(marks::COMMA)?;
            if cursor.sees_mark(marks::RIGHT_BRACE) {
                return Ok(found);
            }
            self.entry(&mut found, cursor)?;
        }
        Err(ReadError::Spent)
    }

    // A list in braces.
    fn braced(&self, cursor: &mut Cursor<'_>) -> Result<HeldInitialiser, ReadError>
        requires { Reads self.now.depth (F.pre self.now.inside) }
    {
        let token = cursor.take_mark(marks::LEFT_BRACE)?;
        let entries = self.entries(cursor)?;
        cursor.take_mark(marks::RIGHT_BRACE)?;
        Ok(c_nodes::braced(entries, token.place, token.start))
    }

    // What stands in the node: a list, or one value.
    fn form(&self, cursor: &mut Cursor<'_>) -> Result<HeldInitialiser, ReadError>
        requires { Reads self.now.depth (F.pre self.now.inside) }
    {
        if cursor.sees_mark(marks::LEFT_BRACE) {
            return self.braced(cursor);
        }
        let value = expression(self.alloc, MOST_CALLS, Form::Assignment, cursor)?;
        Ok(c_nodes::one_value(value))
    }

    fn initialiser(&self, cursor: &mut Cursor<'_>) -> Result<HeldInitialiser, ReadError>
        requires { Reads self.now.depth (F.pre self.now.inside) }
    {
        cursor.enter()?;
        let value = self.form(cursor)?;
        cursor.leave();
        Ok(value)
    }
}

/// An initialiser.
pub(crate) fn initialiser(
    alloc: Global,
    depth: usize,
    cursor: &mut Cursor<'_>,
) -> Result<HeldInitialiser, ReadError> {
    if depth == 0 {
        return Err(ReadError::TooDeep);
    }
    cursor.stop_past_limit()?;
    let reader = Initialisers {
        alloc,
        depth: depth - 1,
        inside: initialiser,
    };
    reader.initialiser(cursor)
}
