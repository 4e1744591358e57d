//! The contents of structures, unions and enumerations (ISO/IEC 9899:1999, 6.7.2.1, 6.7.2.2), each a node of the nesting.
ghost use Rattle.c_parser_declarators.specs.Callable.{Reads, ReadsModes};

use crate::declared::Declared;
use crate::mode::Mode;
use crate::reader::Declarators;
use c_cursor::{Cursor, ReadError};
use c_kinds::kinds::name_in;
use c_syntax::marks;
use c_tree::{
    HeldDeclarator, HeldDeclarators, HeldEnumerators, HeldExpr, HeldMembers, HeldSpecifiers,
};
use std::alloc::Global;
use sv_base::faults;

impl<
    E: Fn(Global, usize, &mut Cursor<'_>) -> Result<HeldExpr, ReadError>,
    S: Fn(Global, usize, &mut Cursor<'_>) -> Result<HeldSpecifiers, ReadError>,
    D: Fn(Global, usize, Mode, &mut Cursor<'_>) -> Result<Declared, ReadError>,
> Declarators<E, S, D> {
    // The declarator of a member. A `:` behind it would begin the width of a bit-field.
    fn member_declarator(&self, cursor: &mut Cursor<'_>) -> Result<HeldDeclarator, ReadError>
        requires constant { Reads self.now.depth (E.pre self.now.constant) }
        requires specifiers { Reads self.now.depth (S.pre self.now.specifiers) }
        requires declarators { ReadsModes self.now.depth (D.pre self.now.declarator) }
    {
        let declared = self.declarator(Mode::Concrete, cursor)?;
        if cursor.sees_mark(marks::COLON) {
            cursor.show(faults::BIT_FIELD);
        }
        Ok(tree_of(declared))
    }

    // The declarators of members that are declared together.
    fn member_declarators(&self, cursor: &mut Cursor<'_>) -> Result<HeldDeclarators, ReadError>
        requires constant { Reads self.now.depth (E.pre self.now.constant) }
        requires specifiers { Reads self.now.depth (S.pre self.now.specifiers) }
        requires declarators { ReadsModes self.now.depth (D.pre self.now.declarator) }
    {
        let mut found = HeldDeclarators::new(self.alloc);
        found.push(self.member_declarator(cursor)?)?;
        for _turn in 0..cursor.turns() {
            if !cursor.sees_mark(marks::COMMA) {
                return Ok(found);
            }
            cursor.take_mark(marks::COMMA)?;
            cursor.end_specifiers();
            found.push(self.member_declarator(cursor)?)?;
        }
        Err(ReadError::Spent)
    }

    // Members that are declared together.
    fn member(&self, found: &mut HeldMembers, cursor: &mut Cursor<'_>) -> Result<(), ReadError>
        requires constant { Reads self.now.depth (E.pre self.now.constant) }
        requires specifiers { Reads self.now.depth (S.pre self.now.specifiers) }
        requires declarators { ReadsModes self.now.depth (D.pre self.now.declarator) }
    {
        cursor.begin()?;
        let head = self.inner_specifiers(cursor)?;
        let parts = self.member_declarators(cursor)?;
        cursor.take_mark(marks::SEMICOLON)?;
        cursor.finish();
        Ok(found.push(head, parts)?)
    }

    // Members, of which there is one at least, up to a `}`.
    fn members(&self, cursor: &mut Cursor<'_>) -> Result<HeldMembers, ReadError>
        requires constant { Reads self.now.depth (E.pre self.now.constant) }
        requires specifiers { Reads self.now.depth (S.pre self.now.specifiers) }
        requires declarators { ReadsModes self.now.depth (D.pre self.now.declarator) }
    {
        let mut found = HeldMembers::new(self.alloc);
        self.member(&mut found, cursor)?;
        for _turn in 0..cursor.turns() {
            if cursor.sees_mark(marks::RIGHT_BRACE) {
                return Ok(found);
            }
            self.member(&mut found, cursor)?;
        }
        Err(ReadError::Spent)
    }

    /// The content of a structure or union, which one with a tag may lack.
    pub(crate) fn record_content(
        &self,
        is_tagged: bool,
        cursor: &mut Cursor<'_>,
    ) -> Result<Option<HeldMembers>, ReadError>
        requires constant { Reads self.now.depth (E.pre self.now.constant) }
        requires specifiers { Reads self.now.depth (S.pre self.now.specifiers) }
        requires declarators { ReadsModes self.now.depth (D.pre self.now.declarator) }
    {
        if is_tagged && !cursor.sees_mark(marks::LEFT_BRACE) {
            return Ok(None);
        }
        cursor.enter()?;
        cursor.take_mark(marks::LEFT_BRACE)?;
        let members = self.members(cursor)?;
        cursor.take_mark(marks::RIGHT_BRACE)?;
        cursor.leave();
        Ok(Some(members))
    }

    // The value of an enumerator, where it has one.
    fn enumerator_value(&self, cursor: &mut Cursor<'_>) -> Result<Option<HeldExpr>, ReadError>
        requires { Reads self.now.depth (E.pre self.now.constant) }
    {
        if !cursor.sees_mark(marks::EQUAL) {
            return Ok(None);
        }
        cursor.take_mark(marks::EQUAL)?;
        Ok(Some(self.constant(cursor)?))
    }

    // An enumerator, whose constant is visible behind its value.
    fn enumerator(
        &self,
        found: &mut HeldEnumerators,
        cursor: &mut Cursor<'_>,
    ) -> Result<(), ReadError>
        requires { Reads self.now.depth (E.pre self.now.constant) }
    {
        cursor.begin()?;
        let token = cursor.take_enumerator_name()?;
        let value = self.enumerator_value(cursor)?;
        cursor.declare()?;
        cursor.finish();
        let name = name_in(&token.kind);
        Ok(found.push(name, value, token.place, token.start)?)
    }

    // Enumerators, of which there is one at least, with a comma behind the last or none.
    fn enumerators(&self, cursor: &mut Cursor<'_>) -> Result<HeldEnumerators, ReadError>
        requires { Reads self.now.depth (E.pre self.now.constant) }
    {
        let mut found = HeldEnumerators::new(self.alloc);
        self.enumerator(&mut found, cursor)?;
        for _turn in 0..cursor.turns() {
            if !cursor.sees_mark(marks::COMMA) {
                return Ok(found);
            }
            cursor.take_mark(marks::COMMA)?;
            if cursor.sees_mark(marks::RIGHT_BRACE) {
                return Ok(found);
            }
            self.enumerator(&mut found, cursor)?;
        }
        Err(ReadError::Spent)
    }

    /// The content of an enumeration, which one with a tag may lack.
    pub(crate) fn enumeration_content(
        &self,
        is_tagged: bool,
        cursor: &mut Cursor<'_>,
    ) -> Result<Option<HeldEnumerators>, ReadError>
        requires { Reads self.now.depth (E.pre self.now.constant) }
    {
        if is_tagged && !cursor.sees_mark(marks::LEFT_BRACE) {
            return Ok(None);
        }
        cursor.enter()?;
        cursor.take_mark(marks::LEFT_BRACE)?;
        let items = self.enumerators(cursor)?;
        cursor.take_mark(marks::RIGHT_BRACE)?;
        cursor.leave();
        Ok(Some(items))
    }
}

/// The declarator alone.
fn tree_of(declared: Declared) -> HeldDeclarator {
    let Declared { tree, name: _ } = declared;
    tree
}
