//! Statements, each a node of the nesting (ISO/IEC 9899:1999, 6.8), and blocks (6.8.2).
ghost use Rattle.c_parser.specs.Callable.{Reads};

use crate::declarations::declaration;
use crate::inside::{MOST_CALLS, constant, expression};
use c_cursor::{Cursor, ReadError};
use c_parser_expressions::Form;
use c_syntax::{marks, words};
use c_tree::{HeldBlock, HeldExpr, HeldStatement, Lexeme, LexemeKind};
use std::alloc::Global;
use sv_base::faults;

/// Reads statements over a function that reads those inside.
#[derive(Clone, Copy)]
pub(crate) struct Statements<F> {
    pub(crate) alloc: Global,
    /// How deep statements inside may still nest.
    pub(crate) depth: usize,
    pub(crate) inside: F,
}

/// An expression that a statement has, up to this mark, where it has one.
pub(crate) fn maybe_expression(
    alloc: Global,
    end: u8,
    cursor: &mut Cursor<'_>,
) -> Result<Option<HeldExpr>, ReadError> {
    if cursor.sees_mark(end) {
        return Ok(None);
    }
    let value = expression(alloc, MOST_CALLS, Form::Expression, cursor)?;
    Ok(Some(value))
}

/// An expression in parentheses, which belong to the statement.
pub(crate) fn condition(alloc: Global, cursor: &mut Cursor<'_>) -> Result<HeldExpr, ReadError> {
    cursor.take_mark(marks::LEFT_PARENTHESIS)?;
    let test = expression(alloc, MOST_CALLS, Form::Expression, cursor)?;
    cursor.take_mark(marks::RIGHT_PARENTHESIS)?;
    Ok(test)
}

/// The name of a label, if it were an expression. The `:` behind it shows the label (6.8.1).
fn label(cursor: &mut Cursor<'_>) -> ReadError {
    if let Err(fault) = cursor.enter() {
        return fault;
    }
    if let Err(fault) = cursor.take_any_name() {
        return fault;
    }
    cursor.leave();
    cursor.show(faults::GOTO);
    ReadError::Wrong(cursor.left())
}

/// The same of a typedef name, if it began a declaration.
fn label_of_type(cursor: &mut Cursor<'_>) -> ReadError {
    if let Err(fault) = cursor.take_tag() {
        return fault;
    }
    cursor.show(faults::GOTO);
    ReadError::Wrong(cursor.left())
}

/// An expression or a null statement (6.8.3).
fn plain(
    alloc: Global,
    first: &Lexeme,
    cursor: &mut Cursor<'_>,
) -> Result<HeldStatement, ReadError> {
    if cursor.sees_value_name() && cursor.sees_mark_behind(marks::COLON) {
        return Err(label(cursor));
    }
    let of = maybe_expression(alloc, marks::SEMICOLON, cursor)?;
    cursor.take_mark(marks::SEMICOLON)?;
    Ok(c_nodes::plain(of, first.place, first.start))
}

impl<F: Fn(Global, usize, &mut Cursor<'_>) -> Result<HeldStatement, ReadError>> Statements<F> {
    pub(crate) fn inside(&self, cursor: &mut Cursor<'_>) -> Result<HeldStatement, ReadError>
        requires { Reads self.now.depth (F.pre self.now.inside) }
    {
        (self.inside)(self.alloc, self.depth, cursor)
    }

    // A statement that another governs, which is a block.
    pub(crate) fn substatement(&self, cursor: &mut Cursor<'_>) -> Result<HeldStatement, ReadError>
        requires { Reads self.now.depth (F.pre self.now.inside) }
    {
        cursor.open_scope()?;
        let body = self.inside(cursor)?;
        cursor.close_scope();
        Ok(body)
    }

    // A declaration or a statement in a block.
    fn block_item(&self, found: &mut HeldBlock, cursor: &mut Cursor<'_>) -> Result<(), ReadError>
        requires { Reads self.now.depth (F.pre self.now.inside) }
    {
        if cursor.sees_specifiers() {
            if cursor.sees_any_name() && cursor.sees_mark_behind(marks::COLON) {
                return Err(label_of_type(cursor));
            }
            let declaration = declaration(self.alloc, cursor)?;
            return Ok(found.push_declaration(declaration)?);
        }
        let statement = self.inside(cursor)?;
        Ok(found.push_statement(statement)?)
    }

    // What stands in braces.
    pub(crate) fn block(&self, cursor: &mut Cursor<'_>) -> Result<HeldBlock, ReadError>
        requires { Reads self.now.depth (F.pre self.now.inside) }
    {
        cursor.take_mark(marks::LEFT_BRACE)?;
        let mut found = HeldBlock::new(self.alloc);
        for _turn in 0..cursor.turns() {
            if cursor.sees_mark(marks::RIGHT_BRACE) {
                cursor.take_mark(marks::RIGHT_BRACE)?;
                return Ok(found);
            }
            self.block_item(&mut found, cursor)?;
        }
        Err(ReadError::Spent)
    }

    // A compound statement.
    pub(crate) fn compound(
        &self,
        first: &Lexeme,
        cursor: &mut Cursor<'_>,
    ) -> Result<HeldStatement, ReadError>
        requires { Reads self.now.depth (F.pre self.now.inside) }
    {
        cursor.open_scope()?;
        let items = self.block(cursor)?;
        cursor.close_scope();
        Ok(c_nodes::compound(items, first.place, first.start))
    }

    // `case` and its value (6.8.1).
    fn case(&self, first: &Lexeme, cursor: &mut Cursor<'_>) -> Result<HeldStatement, ReadError>
        requires { Reads self.now.depth (F.pre self.now.inside) }
    {
        cursor.take_word(words::CASE)?;
        let value = constant(self.alloc, MOST_CALLS, cursor)?;
        cursor.take_mark(marks::COLON)?;
        let body = self.inside(cursor)?;
        Ok(c_nodes::case(self.alloc, value, body, first.place, first.start)?)
    }

    // `default` (6.8.1)
    fn default(&self, first: &Lexeme, cursor: &mut Cursor<'_>) -> Result<HeldStatement, ReadError>
        requires { Reads self.now.depth (F.pre self.now.inside) }
    {
        cursor.take_word(words::DEFAULT)?;
        cursor.take_mark(marks::COLON)?;
        let body = self.inside(cursor)?;
        Ok(c_nodes::default(self.alloc, body, first.place, first.start)?)
    }

    // A statement that begins with a keyword.
    fn with_keyword(
        &self,
        word: u8,
        first: &Lexeme,
        cursor: &mut Cursor<'_>,
    ) -> Result<HeldStatement, ReadError>
        requires { Reads self.now.depth (F.pre self.now.inside) }
    {
        match word {
            words::IF => self.selected(first, cursor),
            words::SWITCH => self.switch(first, cursor),
            words::CASE => self.case(first, cursor),
            words::DEFAULT => self.default(first, cursor),
            words::WHILE => self.while_loop(first, cursor),
            words::DO => self.do_while(first, cursor),
            words::FOR => self.for_loop(first, cursor),
            words::BREAK => crate::jumps::break_out(first, cursor),
            words::CONTINUE => crate::jumps::go_on(first, cursor),
            words::RETURN => crate::jumps::give_back(self.alloc, first, cursor),
            _ => plain(self.alloc, first, cursor),
        }
    }

    // What stands in the node of a statement.
    fn form(&self, first: &Lexeme, cursor: &mut Cursor<'_>) -> Result<HeldStatement, ReadError>
        requires { Reads self.now.depth (F.pre self.now.inside) }
    {
        match &first.kind {
            LexemeKind::Mark(marks::LEFT_BRACE) => self.compound(first, cursor),
            LexemeKind::Word(word) => self.with_keyword(*word, first, cursor),
            _ => plain(self.alloc, first, cursor),
        }
    }

    // A statement, at its first token.
    fn statement(&self, cursor: &mut Cursor<'_>) -> Result<HeldStatement, ReadError>
        requires { Reads self.now.depth (F.pre self.now.inside) }
    {
        let first = cursor.look()?;
        cursor.enter()?;
        let statement = self.form(first, cursor)?;
        cursor.leave();
        Ok(statement)
    }
}

/// A statement.
pub(crate) fn statement(
    alloc: Global,
    depth: usize,
    cursor: &mut Cursor<'_>,
) -> Result<HeldStatement, ReadError> {
    if depth == 0 {
        return Err(ReadError::TooDeep);
    }
    cursor.stop_past_limit()?;
    let reader = Statements {
        alloc,
        depth: depth - 1,
        inside: statement,
    };
    reader.statement(cursor)
}

/// The block of a function, which is a compound statement at this token.
pub(crate) fn body(
    alloc: Global,
    first: &Lexeme,
    cursor: &mut Cursor<'_>,
) -> Result<HeldStatement, ReadError> {
    let reader = Statements {
        alloc,
        depth: MOST_CALLS,
        inside: statement,
    };
    cursor.enter()?;
    let items = reader.block(cursor)?;
    cursor.leave();
    Ok(c_nodes::compound(items, first.place, first.start))
}
