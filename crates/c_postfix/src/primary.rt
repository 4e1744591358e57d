ghost use Rattle.std.specs.Prelude.{◌≡◌, ◌++◌, OnOk};
ghost use Rattle.c_grammar.specs.Terminals as w;
ghost use Rattle.c_grammar.specs.Tokens.{bytes_of};
ghost use Rattle.c_postfix.specs.Runs.{Runs};
ghost use Rattle.c_cursor.specs.Parsers.{Reads};
ghost use Rattle.c_reads.specs.Postfix as spec;

use crate::inner::{Inner, Postfix};
use crate::nodes;
use c_cursor::{Cursor, ReadError};
use c_kinds::kinds::bytes_in;
use c_syntax::marks;
use c_tree::{HeldExpr, Lexeme};
use sqlite_items::Items;
use std::alloc::{AllocError, Global};

/// A name that is no typedef name (ISO/IEC 9899:1999, 6.5.1).
#[tactic(auto, unfolding(c_reads::specs::Postfix::name))]
pub fn name(cursor: &mut Cursor<'_>) -> Result<HeldExpr, ReadError>
    ensures { Reads (spec.name cursor.old) result cursor.new }
{
    cursor.enter()?;
    let token = cursor.take_value_name()?;
    cursor.leave();
    Ok(nodes::name(token))
}

/// An integer constant (6.4.4.1).
#[tactic(auto, unfolding(c_reads::specs::Postfix::constant))]
pub fn number(cursor: &mut Cursor<'_>) -> Result<HeldExpr, ReadError>
    ensures { Reads (spec.constant w.number cursor.old) result cursor.new }
{
    cursor.enter()?;
    let token = cursor.take_number()?;
    cursor.leave();
    Ok(nodes::constant(token))
}

/// A character constant (6.4.4.4).
#[tactic(auto, unfolding(c_reads::specs::Postfix::constant))]
pub fn character(cursor: &mut Cursor<'_>) -> Result<HeldExpr, ReadError>
    ensures { Reads (spec.constant w.character cursor.old) result cursor.new }
{
    cursor.enter()?;
    let token = cursor.take_character()?;
    cursor.leave();
    Ok(nodes::constant(token))
}

// The bytes of a text, put behind others.
fn join(alloc: Global, bytes: &mut Items<u8>, token: &Lexeme) -> Result<(), AllocError>
    ensures { OnOk result (bytes.new ≡ bytes.old ++ bytes_of token.now) }
{
    let more = Items::from_slice(alloc, bytes_in(&token.kind))?;
    bytes.append(more)
}

/// Neighbouring texts (6.4.5), joined behind the bytes before them.
pub fn texts(
    alloc: Global,
    mut bytes: Items<u8>,
    cursor: &mut Cursor<'_>,
) -> Result<Items<u8>, ReadError>
    ensures { Reads (spec.texts bytes cursor.old) result cursor.new }
{
    for _turn in 0..cursor.turns() {
        if !cursor.sees_text() {
            return Ok(bytes);
        }
        let token = cursor.take_text()?;
        join(alloc, &mut bytes, token)?;
    }
    Err(ReadError::Spent)
}

/// A string literal, its neighbours joined (6.4.5).
#[tactic(auto, unfolding(c_reads::specs::Postfix::text))]
pub fn text(alloc: Global, cursor: &mut Cursor<'_>) -> Result<HeldExpr, ReadError>
    ensures { Reads (spec.text cursor.old) result cursor.new }
{
    cursor.enter()?;
    let token = cursor.take_text()?;
    let bytes = Items::from_slice(alloc, bytes_in(&token.kind))?;
    let bytes = texts(alloc, bytes, cursor)?;
    cursor.leave();
    Ok(nodes::text(token, bytes))
}

impl<
    S: Inner,
    F: Fn(Global, usize, &mut Cursor<'_>) -> Result<HeldExpr, ReadError>,
    G: Fn(Global, usize, &mut Cursor<'_>) -> Result<HeldExpr, ReadError>,
> Postfix<S, F, G> {
    /// An expression in parentheses (6.5.1), which make no node.
    #[tactic(auto, unfolding(c_reads::specs::Postfix::parenthesised))]
    pub(crate) fn parenthesised(&self, cursor: &mut Cursor<'_>) -> Result<HeldExpr, ReadError>
        requires { Runs S.inside self.now.depth (F.pre self.now.inside) (F.post self.now.inside) }
        ensures { Reads (spec.parenthesised (S.inside self.now.depth) (S.argument self.now.depth) cursor.old) result cursor.new }
    {
        cursor.enter()?;
        cursor.take_mark(marks::LEFT_PARENTHESIS)?;
        let inside = self.inside(cursor)?;
        cursor.take_closing(marks::RIGHT_PARENTHESIS)?;
        cursor.leave();
        Ok(inside)
    }

    /// A primary expression (6.5.1).
    #[tactic(auto, unfolding(c_reads::specs::Postfix::primary, c_cursor::specs::Parsers::on))]
    pub(crate) fn primary(&self, cursor: &mut Cursor<'_>) -> Result<HeldExpr, ReadError>
        requires { Runs S.inside self.now.depth (F.pre self.now.inside) (F.post self.now.inside) }
        ensures { Reads (spec.primary (S.inside self.now.depth) (S.argument self.now.depth) cursor.old) result cursor.new }
    {
        if cursor.sees_value_name() {
            return name(cursor);
        }
        if cursor.sees_number() {
            return number(cursor);
        }
        if cursor.sees_character() {
            return character(cursor);
        }
        if cursor.sees_text() {
            return text(self.alloc, cursor);
        }
        self.parenthesised(cursor)
    }
}
