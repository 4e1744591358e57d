//! Lists of specifiers (ISO/IEC 9899:1999, 6.7), and type names (6.7.6).
ghost use Rattle.c_parser_declarators.specs.Callable.{Reads, ReadsModes};

use crate::declared::Declared;
use crate::mode::Mode;
use crate::reader::Declarators;
use c_cursor::{Cursor, ReadError};
use c_kinds::keywords::{is_word, word_in};
use c_kinds::kinds::name_in;
use c_syntax::words;
use c_tree::{HeldExpr, HeldSpecifiers, HeldTypeName, Lexeme, RecordKind};
use std::alloc::{AllocError, Global};

/// A keyword among specifiers.
fn push_plain(found: &mut HeldSpecifiers, token: &Lexeme) -> Result<(), AllocError> {
    found.push_plain(word_in(&token.kind), token.place, token.start)
}

/// Whether a specifier comes next.
fn sees_specifier(cursor: &Cursor<'_>) -> bool {
    cursor.sees_typedef()
        || cursor.sees_plain_specifier()
        || cursor.sees_type_word()
        || cursor.sees_record_word()
        || cursor.sees_enumeration_word()
        || cursor.sees_typedef_name()
}

/// A storage class, a qualifier, `inline`, or a word of a basic type.
fn keyword(found: &mut HeldSpecifiers, cursor: &mut Cursor<'_>) -> Result<(), ReadError> {
    let token = if cursor.sees_typedef() {
        cursor.take_typedef()?
    } else if cursor.sees_plain_specifier() {
        cursor.take_plain_specifier()?
    } else {
        cursor.take_type_word()?
    };
    Ok(push_plain(found, token)?)
}

/// A typedef name (6.7.7).
fn typedef_name(found: &mut HeldSpecifiers, cursor: &mut Cursor<'_>) -> Result<(), ReadError> {
    let token = cursor.take_typedef_name()?;
    Ok(found.push_typedef(name_in(&token.kind), token.place, token.start)?)
}

/// A tag, where one comes next (6.7.2.3).
fn tag(cursor: &mut Cursor<'_>) -> Result<Option<u32>, ReadError> {
    if cursor.sees_any_name() {
        let token = cursor.take_tag()?;
        return Ok(Some(name_in(&token.kind)));
    }
    Ok(None)
}

fn record_kind(token: &Lexeme) -> RecordKind {
    if is_word(words::STRUCT, &token.kind) {
        RecordKind::Struct
    } else {
        RecordKind::Union
    }
}

impl<
    E: Fn(Global, usize, &mut Cursor<'_>) -> Result<HeldExpr, ReadError>,
    S: Fn(Global, usize, &mut Cursor<'_>) -> Result<HeldSpecifiers, ReadError>,
    D: Fn(Global, usize, Mode, &mut Cursor<'_>) -> Result<Declared, ReadError>,
> Declarators<E, S, D> {
    // A structure or union (6.7.2.1).
    fn record(&self, found: &mut HeldSpecifiers, cursor: &mut Cursor<'_>) -> Result<(), ReadError>
        requires constant { Reads self.now.depth (E.pre self.now.constant) }
        requires specifiers { Reads self.now.depth (S.pre self.now.specifiers) }
        requires declarators { ReadsModes self.now.depth (D.pre self.now.declarator) }
    {
        let token = cursor.take_record_word()?;
        let tag = tag(cursor)?;
        let members = self.record_content(tag.is_some(), cursor)?;
        let kind = record_kind(token);
        Ok(found.push_record(kind, tag, members, token.place, token.start)?)
    }

    // An enumeration (6.7.2.2).
    fn enumeration(
        &self,
        found: &mut HeldSpecifiers,
        cursor: &mut Cursor<'_>,
    ) -> Result<(), ReadError>
        requires { Reads self.now.depth (E.pre self.now.constant) }
    {
        let token = cursor.take_enumeration_word()?;
        let tag = tag(cursor)?;
        let items = self.enumeration_content(tag.is_some(), cursor)?;
        Ok(found.push_enumeration(tag, items, token.place, token.start)?)
    }

    // A specifier.
    fn specifier(
        &self,
        found: &mut HeldSpecifiers,
        cursor: &mut Cursor<'_>,
    ) -> Result<(), ReadError>
        requires constant { Reads self.now.depth (E.pre self.now.constant) }
        requires specifiers { Reads self.now.depth (S.pre self.now.specifiers) }
        requires declarators { ReadsModes self.now.depth (D.pre self.now.declarator) }
    {
        if cursor.sees_record_word() {
            return self.record(found, cursor);
        }
        if cursor.sees_enumeration_word() {
            return self.enumeration(found, cursor);
        }
        if cursor.sees_typedef_name() {
            return typedef_name(found, cursor);
        }
        keyword(found, cursor)
    }

    /// Specifiers, of which there is one at least.
    pub fn specifiers(&self, cursor: &mut Cursor<'_>) -> Result<HeldSpecifiers, ReadError>
        requires constant { Reads self.now.depth (E.pre self.now.constant) }
        requires specifiers { Reads self.now.depth (S.pre self.now.specifiers) }
        requires declarators { ReadsModes self.now.depth (D.pre self.now.declarator) }
    {
        let mut found = HeldSpecifiers::new(self.alloc);
        self.specifier(&mut found, cursor)?;
        for _turn in 0..cursor.turns() {
            if !sees_specifier(cursor) {
                return Ok(found);
            }
            self.specifier(&mut found, cursor)?;
        }
        Err(ReadError::Spent)
    }

    /// A type name (6.7.6).
    pub fn type_name(&self, cursor: &mut Cursor<'_>) -> Result<HeldTypeName, ReadError>
        requires constant { Reads self.now.depth (E.pre self.now.constant) }
        requires specifiers { Reads self.now.depth (S.pre self.now.specifiers) }
        requires declarators { ReadsModes self.now.depth (D.pre self.now.declarator) }
    {
        cursor.begin()?;
        let head = self.specifiers(cursor)?;
        let declarator = self.maybe_declarator(Mode::Abstract, cursor)?;
        cursor.finish();
        Ok(c_nodes::type_name(head, declarator))
    }
}
