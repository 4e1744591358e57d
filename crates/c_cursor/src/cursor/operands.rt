//! What primary and postfix expressions are made of (ISO/IEC 9899:1999, 6.5.1, 6.5.2).
ghost use Rattle.std.specs.Prelude.{◌≡◌, ◌≢◌, ◌≤◌, IfErr, IsErrOf, OnErr};
ghost use Rattle.c_grammar.specs.State as state;
ghost use Rattle.c_grammar.specs.Terminals as w;
ghost use Rattle.c_cursor.specs.Parsers.{sees, take, Takes};
ghost use Rattle.c_kinds.specs.PostfixMarks.{begins_operator};

use super::Cursor;
use crate::error::ReadError;
use c_kinds::kinds::{is_character, is_number, is_postfix, is_text};
use c_tree::Lexeme;

impl<'a> Cursor<'a> {
    /// Whether a postfix operator begins with the next token.
    pub fn sees_operator(&self) -> bool
        ensures { result ≡ sees begins_operator self.now }
    {
        match self.rest {
            [] => false,
            [token, ..] => is_postfix(&token.kind),
        }
    }

    /// Whether the next token is a name that is no typedef name.
    pub fn sees_value_name(&self) -> bool
        ensures { result ≡ sees w.value_name self.now }
    {
        match self.rest {
            [] => false,
            [token, ..] => self.is_value(token),
        }
    }

    /// Whether the next token is an integer constant.
    pub fn sees_number(&self) -> bool
        ensures { result ≡ sees w.number self.now }
    {
        match self.rest {
            [] => false,
            [token, ..] => is_number(&token.kind),
        }
    }

    /// Whether the next token is a character constant.
    pub fn sees_character(&self) -> bool
        ensures { result ≡ sees w.character self.now }
    {
        match self.rest {
            [] => false,
            [token, ..] => is_character(&token.kind),
        }
    }

    /// Whether the next token is a string literal.
    pub fn sees_text(&self) -> bool
        ensures { result ≡ sees w.text self.now }
    {
        match self.rest {
            [] => false,
            [token, ..] => is_text(&token.kind),
        }
    }

    /// `++` or `--` behind its operand, which becomes one deeper.
    pub fn take_bump(&mut self) -> Result<&'a Lexeme, ReadError>
        ensures takes { Takes (take (w.closing (w.operator w.bump)) self.old) result self.new }
        ensures full { IsErrOf result ReadError.NoMemory → usize.MAX ≤ state.top (state.read self.old.state).nesting.deepest }
        ensures stays { OnErr result (self.new ≡ self.old) }
    {
        let fits = self.sees_bump();
        let token = self.take_operator_if(fits)?;
        self.unary = true;
        Ok(token)
    }

    /// Any name, as that of a member, with which a unary expression ends.
    pub fn take_any_name(&mut self) -> Result<&'a Lexeme, ReadError>
        ensures takes { Takes (take (w.closing w.any_name) self.old) result self.new }
        ensures needs_no_memory { IfErr result (λ e. e ≢ ReadError.NoMemory) }
        ensures stays { OnErr result (self.new ≡ self.old) }
    {
        let fits = self.sees_any_name();
        let token = self.take_if(fits)?;
        self.unary = true;
        Ok(token)
    }

    /// A name that is no typedef name, as an expression.
    pub fn take_value_name(&mut self) -> Result<&'a Lexeme, ReadError>
        ensures takes { Takes (take w.value_name self.old) result self.new }
        ensures needs_no_memory { IfErr result (λ e. e ≢ ReadError.NoMemory) }
        ensures stays { OnErr result (self.new ≡ self.old) }
    {
        let fits = self.sees_value_name();
        let token = self.take_if(fits)?;
        self.unary = true;
        Ok(token)
    }

    /// An integer constant.
    pub fn take_number(&mut self) -> Result<&'a Lexeme, ReadError>
        ensures takes { Takes (take w.number self.old) result self.new }
        ensures needs_no_memory { IfErr result (λ e. e ≢ ReadError.NoMemory) }
        ensures stays { OnErr result (self.new ≡ self.old) }
    {
        let fits = self.sees_number();
        let token = self.take_if(fits)?;
        self.unary = true;
        Ok(token)
    }

    /// A character constant.
    pub fn take_character(&mut self) -> Result<&'a Lexeme, ReadError>
        ensures takes { Takes (take w.character self.old) result self.new }
        ensures needs_no_memory { IfErr result (λ e. e ≢ ReadError.NoMemory) }
        ensures stays { OnErr result (self.new ≡ self.old) }
    {
        let fits = self.sees_character();
        let token = self.take_if(fits)?;
        self.unary = true;
        Ok(token)
    }

    /// A string literal.
    pub fn take_text(&mut self) -> Result<&'a Lexeme, ReadError>
        ensures takes { Takes (take w.text self.old) result self.new }
        ensures needs_no_memory { IfErr result (λ e. e ≢ ReadError.NoMemory) }
        ensures stays { OnErr result (self.new ≡ self.old) }
    {
        let fits = self.sees_text();
        let token = self.take_if(fits)?;
        self.unary = true;
        Ok(token)
    }
}
