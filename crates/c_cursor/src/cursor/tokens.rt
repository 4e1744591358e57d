//! Tokens of a kind, whatever the state is.
ghost use Rattle.std.specs.Prelude.{◌≡◌, ◌≢◌, ◌≤◌, slice_get, IfErr, IsErrOf, OnErr};
ghost use Rattle.std.specs.Option.{option_copied};
ghost use Rattle.c_grammar.specs.State as state;
ghost use Rattle.c_grammar.specs.Terminals as w;
ghost use Rattle.c_cursor.specs.Parsers.{sees, take, Takes};

use super::Cursor;
use crate::error::ReadError;
use c_kinds::keywords::{is_end, is_word};
use c_kinds::kinds::{is_mark, is_name};
use c_tree::Lexeme;

impl<'a> Cursor<'a> {
    /// The next token, which is not read.
    pub fn peek(&self) -> Option<&'a Lexeme>
        ensures { option_copied result ≡ slice_get self.now.rest 0 }
    {
        self.rest.first()
    }

    /// Whether the next token is the punctuator.
    pub fn sees_mark(&self, mark: u8) -> bool
        ensures { result ≡ sees (w.mark mark) self.now }
    {
        match self.rest {
            [] => false,
            [token, ..] => is_mark(mark, &token.kind),
        }
    }

    /// Whether the next token is the keyword.
    pub fn sees_word(&self, word: u8) -> bool
        ensures { result ≡ sees (w.word word) self.now }
    {
        match self.rest {
            [] => false,
            [token, ..] => is_word(word, &token.kind),
        }
    }

    /// Whether the next token is a name.
    pub fn sees_any_name(&self) -> bool
        ensures { result ≡ sees w.any_name self.now }
    {
        match self.rest {
            [] => false,
            [token, ..] => is_name(&token.kind),
        }
    }

    /// Whether the next token is the end of the file.
    pub fn sees_end(&self) -> bool
        ensures { result ≡ sees w.end self.now }
    {
        match self.rest {
            [] => false,
            [token, ..] => is_end(&token.kind),
        }
    }

    /// The punctuator, as no end of an expression.
    pub fn take_mark(&mut self, mark: u8) -> Result<&'a Lexeme, ReadError>
        ensures takes { Takes (take (w.mark mark) self.old) result self.new }
        ensures needs_no_memory { IfErr result (λ e. e ≢ ReadError.NoMemory) }
        ensures stays { OnErr result (self.new ≡ self.old) }
    {
        let fits = self.sees_mark(mark);
        self.take_if(fits)
    }

    /// The punctuator that ends a unary expression.
    pub fn take_closing(&mut self, mark: u8) -> Result<&'a Lexeme, ReadError>
        ensures takes { Takes (take (w.closing (w.mark mark)) self.old) result self.new }
        ensures needs_no_memory { IfErr result (λ e. e ≢ ReadError.NoMemory) }
        ensures stays { OnErr result (self.new ≡ self.old) }
    {
        let fits = self.sees_mark(mark);
        let token = self.take_if(fits)?;
        self.unary = true;
        Ok(token)
    }

    /// The punctuator as an operator behind its operand, which becomes one deeper. A depth that no memory could hold counts as want
    /// of memory.
    pub fn take_operator(&mut self, mark: u8) -> Result<&'a Lexeme, ReadError>
        ensures takes { Takes (take (w.operator (w.mark mark)) self.old) result self.new }
        ensures full { IsErrOf result ReadError.NoMemory → usize.MAX ≤ state.top (state.read self.old.state).nesting.deepest }
        ensures stays { OnErr result (self.new ≡ self.old) }
    {
        let fits = self.sees_mark(mark);
        self.take_operator_if(fits)
    }

    /// The keyword.
    pub fn take_word(&mut self, word: u8) -> Result<&'a Lexeme, ReadError>
        ensures takes { Takes (take (w.word word) self.old) result self.new }
        ensures needs_no_memory { IfErr result (λ e. e ≢ ReadError.NoMemory) }
        ensures stays { OnErr result (self.new ≡ self.old) }
    {
        let fits = self.sees_word(word);
        self.take_if(fits)
    }

    /// Any name, as a tag or the member of a designator, which is no end of an expression.
    pub fn take_tag(&mut self) -> Result<&'a Lexeme, ReadError>
        ensures takes { Takes (take w.any_name self.old) result self.new }
        ensures needs_no_memory { IfErr result (λ e. e ≢ ReadError.NoMemory) }
        ensures stays { OnErr result (self.new ≡ self.old) }
    {
        let fits = self.sees_any_name();
        self.take_if(fits)
    }

    /// The end of the file.
    pub fn take_end(&mut self) -> Result<&'a Lexeme, ReadError>
        ensures takes { Takes (take w.end self.old) result self.new }
        ensures needs_no_memory { IfErr result (λ e. e ≢ ReadError.NoMemory) }
        ensures stays { OnErr result (self.new ≡ self.old) }
    {
        let fits = self.sees_end();
        self.take_if(fits)
    }
}
