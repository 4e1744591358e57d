//! Declarators, each a node of the nesting (ISO/IEC 9899:1999, 6.7.5, 6.7.6).
ghost use Rattle.c_parser_declarators.specs.Callable.{Reads, ReadsModes};

use crate::declared::{Declared, Direct, Spot};
use crate::mode::Mode;
use crate::reader::Declarators;
use c_cursor::{Cursor, ReadError};
use c_kinds::keywords::word_in;
use c_kinds::kinds::name_in;
use c_syntax::marks;
use c_tree::{HeldDeclarator, HeldExpr, HeldParts, HeldSpecifiers, Lexeme};
use sqlite_items::Items;
use std::alloc::Global;

/// Whether a declarator begins with the next token.
fn sees_declarator(mode: Mode, cursor: &Cursor<'_>) -> bool {
    cursor.sees_mark(marks::ASTERISK) || sees_direct(mode, cursor)
}

/// Whether a declarator without pointers begins with the next token.
fn sees_direct(mode: Mode, cursor: &Cursor<'_>) -> bool {
    cursor.sees_mark(marks::LEFT_PARENTHESIS)
        || mode.may_lack_name() && cursor.sees_mark(marks::LEFT_BRACKET)
        || mode.may_have_name() && cursor.sees_any_name()
}

/// Whether a `(`, before which no name stands, begins a parameter list: `()` does, and so does one before specifiers (6.7.5.3).
fn sees_parameters(mode: Mode, cursor: &Cursor<'_>) -> bool {
    match mode {
        Mode::Concrete => false,
        Mode::Abstract => {
            cursor.sees_mark_behind(marks::RIGHT_PARENTHESIS)
                || cursor.sees_specifiers_behind()
                || cursor.sees_any_name_behind()
        }
        Mode::Parameter | Mode::Grouped => {
            cursor.sees_mark_behind(marks::RIGHT_PARENTHESIS) || cursor.sees_specifiers_behind()
        }
    }
}

/// The qualifiers of a pointer (6.7.5.1).
fn qualifiers(alloc: Global, cursor: &mut Cursor<'_>) -> Result<Items<u8>, ReadError> {
    let mut found = Items::new(alloc);
    for _turn in 0..cursor.turns() {
        if !cursor.sees_qualifier() {
            return Ok(found);
        }
        let token = cursor.take_qualifier()?;
        found.push(word_in(&token.kind))?;
    }
    Err(ReadError::Spent)
}

/// Pointers, behind which no specifiers go on.
fn pointers(alloc: Global, cursor: &mut Cursor<'_>) -> Result<Items<Items<u8>>, ReadError> {
    let mut found = Items::new(alloc);
    for _turn in 0..cursor.turns() {
        if !cursor.sees_mark(marks::ASTERISK) {
            return Ok(found);
        }
        cursor.take_mark(marks::ASTERISK)?;
        cursor.end_specifiers();
        found.push(qualifiers(alloc, cursor)?)?;
    }
    Err(ReadError::Spent)
}

/// A name that is declared.
fn take_name<'a>(mode: Mode, cursor: &mut Cursor<'a>) -> Result<&'a Lexeme, ReadError> {
    match mode {
        Mode::Grouped => cursor.take_grouped_name(),
        Mode::Concrete | Mode::Parameter | Mode::Abstract => cursor.take_declared_name(),
    }
}

/// A declarator of its parts, at the name in it or at its first token.
fn declared(first: &Lexeme, pointers: Items<Items<u8>>, direct: Direct) -> Declared {
    let Direct { core, parts, name } = direct;
    let spot = name.unwrap_or(Spot::of(first));
    Declared {
        tree: c_nodes::declarator(pointers, core, parts, spot.place, spot.start),
        name,
    }
}

impl<
    E: Fn(Global, usize, &mut Cursor<'_>) -> Result<HeldExpr, ReadError>,
    S: Fn(Global, usize, &mut Cursor<'_>) -> Result<HeldSpecifiers, ReadError>,
    D: Fn(Global, usize, Mode, &mut Cursor<'_>) -> Result<Declared, ReadError>,
> Declarators<E, S, D> {
    // A name, and the parts behind it.
    fn named(&self, mode: Mode, cursor: &mut Cursor<'_>) -> Result<Direct, ReadError>
        requires constant { Reads self.now.depth (E.pre self.now.constant) }
        requires specifiers { Reads self.now.depth (S.pre self.now.specifiers) }
        requires declarators { ReadsModes self.now.depth (D.pre self.now.declarator) }
    {
        let token = take_name(mode, cursor)?;
        let parts = self.parts(cursor)?;
        Ok(Direct {
            core: c_nodes::named(name_in(&token.kind)),
            parts,
            name: Some(Spot::of(token)),
        })
    }

    // A declarator in parentheses, in which no specifiers go on.
    fn in_parentheses(&self, mode: Mode, cursor: &mut Cursor<'_>) -> Result<Declared, ReadError>
        requires { ReadsModes self.now.depth (D.pre self.now.declarator) }
    {
        cursor.take_mark(marks::LEFT_PARENTHESIS)?;
        cursor.end_specifiers();
        let inside = self.inner_declarator(mode.in_parentheses(), cursor)?;
        cursor.take_mark(marks::RIGHT_PARENTHESIS)?;
        Ok(inside)
    }

    // A declarator in parentheses, and the parts behind it.
    fn nested(&self, mode: Mode, cursor: &mut Cursor<'_>) -> Result<Direct, ReadError>
        requires constant { Reads self.now.depth (E.pre self.now.constant) }
        requires specifiers { Reads self.now.depth (S.pre self.now.specifiers) }
        requires declarators { ReadsModes self.now.depth (D.pre self.now.declarator) }
    {
        let Declared { tree, name } = self.in_parentheses(mode, cursor)?;
        let core = c_nodes::nested(self.alloc, tree)?;
        let parts = self.parts(cursor)?;
        Ok(Direct { core, parts, name })
    }

    // Parts without a name, of which there is one at least.
    fn nameless(&self, cursor: &mut Cursor<'_>) -> Result<Direct, ReadError>
        requires constant { Reads self.now.depth (E.pre self.now.constant) }
        requires specifiers { Reads self.now.depth (S.pre self.now.specifiers) }
        requires declarators { ReadsModes self.now.depth (D.pre self.now.declarator) }
    {
        let mut parts = HeldParts::new(self.alloc);
        self.part(&mut parts, cursor)?;
        self.more_parts(&mut parts, cursor)?;
        Ok(Direct {
            core: c_nodes::absent(),
            parts,
            name: None,
        })
    }

    // A declarator without pointers.
    fn direct(&self, mode: Mode, cursor: &mut Cursor<'_>) -> Result<Direct, ReadError>
        requires constant { Reads self.now.depth (E.pre self.now.constant) }
        requires specifiers { Reads self.now.depth (S.pre self.now.specifiers) }
        requires declarators { ReadsModes self.now.depth (D.pre self.now.declarator) }
    {
        if mode.may_have_name() && cursor.sees_any_name() {
            return self.named(mode, cursor);
        }
        if cursor.sees_mark(marks::LEFT_PARENTHESIS) && !sees_parameters(mode, cursor) {
            return self.nested(mode, cursor);
        }
        if mode.may_lack_name() {
            return self.nameless(cursor);
        }
        self.named(mode, cursor)
    }

    // What stands behind pointers, which may be nothing where no name is needed.
    fn behind_pointers(&self, mode: Mode, cursor: &mut Cursor<'_>) -> Result<Direct, ReadError>
        requires constant { Reads self.now.depth (E.pre self.now.constant) }
        requires specifiers { Reads self.now.depth (S.pre self.now.specifiers) }
        requires declarators { ReadsModes self.now.depth (D.pre self.now.declarator) }
    {
        if mode.may_lack_name() && !sees_direct(mode, cursor) {
            return Ok(Direct {
                core: c_nodes::absent(),
                parts: HeldParts::new(self.alloc),
                name: None,
            });
        }
        let direct = self.direct(mode.behind_pointer(), cursor)?;
        cursor.indirect();
        Ok(direct)
    }

    /// A declarator.
    pub fn declarator(&self, mode: Mode, cursor: &mut Cursor<'_>) -> Result<Declared, ReadError>
        requires constant { Reads self.now.depth (E.pre self.now.constant) }
        requires specifiers { Reads self.now.depth (S.pre self.now.specifiers) }
        requires declarators { ReadsModes self.now.depth (D.pre self.now.declarator) }
    {
        let first = cursor.look()?;
        cursor.enter()?;
        let pointers = pointers(self.alloc, cursor)?;
        let direct = if pointers.is_empty() {
            self.direct(mode, cursor)?
        } else {
            self.behind_pointers(mode, cursor)?
        };
        cursor.leave();
        Ok(declared(first, pointers, direct))
    }

    /// A declarator, where one comes next.
    pub(crate) fn maybe_declarator(
        &self,
        mode: Mode,
        cursor: &mut Cursor<'_>,
    ) -> Result<Option<HeldDeclarator>, ReadError>
        requires { ReadsModes self.now.depth (D.pre self.now.declarator) }
    {
        if !sees_declarator(mode, cursor) {
            return Ok(None);
        }
        let Declared { tree, name: _ } = self.inner_declarator(mode, cursor)?;
        Ok(Some(tree))
    }
}
