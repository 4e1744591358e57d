//! The parts of declarators: arrays (ISO/IEC 9899:1999, 6.7.5.2) and parameter lists (6.7.5.3).
ghost use Rattle.c_parser_declarators.specs.Callable.{Reads, ReadsModes};

use crate::declared::{Declared, Parameters};
use crate::mode::Mode;
use crate::reader::Declarators;
use c_cursor::{Cursor, ReadError};
use c_syntax::{marks, words};
use c_tree::{Dots, HeldExpr, HeldParams, HeldParts, HeldSpecifiers};
use std::alloc::Global;
use sv_base::faults;

/// Whether a part of a declarator comes next.
fn sees_part(cursor: &Cursor<'_>) -> bool {
    cursor.sees_mark(marks::LEFT_BRACKET) || cursor.sees_mark(marks::LEFT_PARENTHESIS)
}

/// The `...` that ends a parameter list, where it comes next.
fn dots(cursor: &mut Cursor<'_>) -> Result<Option<Dots>, ReadError> {
    if !cursor.sees_mark(marks::ELLIPSIS) {
        return Ok(None);
    }
    let token = cursor.take_mark(marks::ELLIPSIS)?;
    Ok(Some(Dots {
        place: token.place,
        start: token.start,
    }))
}

/// A name before a `,` or a `)`, in the place of a parameter, would begin a definition of the old style (6.9.1).
fn look_for_old_style(cursor: &mut Cursor<'_>) {
    let ends = cursor.sees_mark_behind(marks::COMMA)
        || cursor.sees_mark_behind(marks::RIGHT_PARENTHESIS);
    if ends && cursor.sees_value_name() {
        cursor.show(faults::OLD_STYLE);
    }
}

impl<
    E: Fn(Global, usize, &mut Cursor<'_>) -> Result<HeldExpr, ReadError>,
    S: Fn(Global, usize, &mut Cursor<'_>) -> Result<HeldSpecifiers, ReadError>,
    D: Fn(Global, usize, Mode, &mut Cursor<'_>) -> Result<Declared, ReadError>,
> Declarators<E, S, D> {
    // The size of an array, where it has one.
    fn size(&self, cursor: &mut Cursor<'_>) -> Result<Option<HeldExpr>, ReadError>
        requires { Reads self.now.depth (E.pre self.now.constant) }
    {
        if cursor.sees_mark(marks::RIGHT_BRACKET) {
            return Ok(None);
        }
        Ok(Some(self.constant(cursor)?))
    }

    // Brackets.
    fn array(&self, found: &mut HeldParts, cursor: &mut Cursor<'_>) -> Result<(), ReadError>
        requires { Reads self.now.depth (E.pre self.now.constant) }
    {
        let token = cursor.take_mark(marks::LEFT_BRACKET)?;
        cursor.indirect();
        let size = self.size(cursor)?;
        cursor.take_mark(marks::RIGHT_BRACKET)?;
        Ok(found.push_array(size, token.place, token.start)?)
    }

    // A parameter.
    fn parameter(&self, found: &mut HeldParams, cursor: &mut Cursor<'_>) -> Result<(), ReadError>
        requires specifiers { Reads self.now.depth (S.pre self.now.specifiers) }
        requires declarators { ReadsModes self.now.depth (D.pre self.now.declarator) }
    {
        cursor.begin()?;
        look_for_old_style(cursor);
        let head = self.inner_specifiers(cursor)?;
        let declarator = self.maybe_declarator(Mode::Parameter, cursor)?;
        cursor.declare()?;
        cursor.finish();
        Ok(found.push(head, declarator)?)
    }

    // Parameters, of which there is one at least, and the dots behind them.
    fn parameter_list(&self, cursor: &mut Cursor<'_>) -> Result<Parameters, ReadError>
        requires specifiers { Reads self.now.depth (S.pre self.now.specifiers) }
        requires declarators { ReadsModes self.now.depth (D.pre self.now.declarator) }
    {
        let mut list = HeldParams::new(self.alloc);
        self.parameter(&mut list, cursor)?;
        for _turn in 0..cursor.turns() {
            if !cursor.sees_mark(marks::COMMA) {
                return Ok(Parameters { list, dots: None });
            }
            cursor.take_mark(marks::COMMA)?;
            if let Some(dots) = dots(cursor)? {
                return Ok(Parameters {
                    list,
                    dots: Some(dots),
                });
            }
            self.parameter(&mut list, cursor)?;
        }
        Err(ReadError::Spent)
    }

    // What stands between the parentheses: nothing, a lone `void`, or parameters.
    fn parameters(&self, cursor: &mut Cursor<'_>) -> Result<Parameters, ReadError>
        requires specifiers { Reads self.now.depth (S.pre self.now.specifiers) }
        requires declarators { ReadsModes self.now.depth (D.pre self.now.declarator) }
    {
        if cursor.sees_word(words::VOID) && cursor.sees_mark_behind(marks::RIGHT_PARENTHESIS) {
            cursor.take_word(words::VOID)?;
        }
        if cursor.sees_mark(marks::RIGHT_PARENTHESIS) {
            return Ok(Parameters {
                list: HeldParams::new(self.alloc),
                dots: None,
            });
        }
        self.parameter_list(cursor)
    }

    // A parameter list, which has a scope of its own.
    fn in_scope(&self, found: &mut HeldParts, cursor: &mut Cursor<'_>) -> Result<(), ReadError>
        requires specifiers { Reads self.now.depth (S.pre self.now.specifiers) }
        requires declarators { ReadsModes self.now.depth (D.pre self.now.declarator) }
    {
        let token = cursor.take_mark(marks::LEFT_PARENTHESIS)?;
        cursor.open_scope()?;
        let Parameters { list, dots } = self.parameters(cursor)?;
        cursor.take_mark(marks::RIGHT_PARENTHESIS)?;
        cursor.close_parameters()?;
        Ok(found.push_parameters(list, dots, token.place, token.start)?)
    }

    /// A part of a declarator.
    pub(crate) fn part(
        &self,
        found: &mut HeldParts,
        cursor: &mut Cursor<'_>,
    ) -> Result<(), ReadError>
        requires constant { Reads self.now.depth (E.pre self.now.constant) }
        requires specifiers { Reads self.now.depth (S.pre self.now.specifiers) }
        requires declarators { ReadsModes self.now.depth (D.pre self.now.declarator) }
    {
        if cursor.sees_mark(marks::LEFT_PARENTHESIS) {
            return self.in_scope(found, cursor);
        }
        self.array(found, cursor)
    }

    /// The parts that come next.
    pub(crate) fn more_parts(
        &self,
        found: &mut HeldParts,
        cursor: &mut Cursor<'_>,
    ) -> Result<(), ReadError>
        requires constant { Reads self.now.depth (E.pre self.now.constant) }
        requires specifiers { Reads self.now.depth (S.pre self.now.specifiers) }
        requires declarators { ReadsModes self.now.depth (D.pre self.now.declarator) }
    {
        for _turn in 0..cursor.turns() {
            if !sees_part(cursor) {
                return Ok(());
            }
            self.part(found, cursor)?;
        }
        Err(ReadError::Spent)
    }

    /// All the parts behind a name or a declarator in parentheses.
    pub(crate) fn parts(&self, cursor: &mut Cursor<'_>) -> Result<HeldParts, ReadError>
        requires constant { Reads self.now.depth (E.pre self.now.constant) }
        requires specifiers { Reads self.now.depth (S.pre self.now.specifiers) }
        requires declarators { ReadsModes self.now.depth (D.pre self.now.declarator) }
    {
        let mut found = HeldParts::new(self.alloc);
        self.more_parts(&mut found, cursor)?;
        Ok(found)
    }
}
