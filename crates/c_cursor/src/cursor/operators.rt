//! The operators of expressions (ISO/IEC 9899:1999, 6.5.3 to 6.5.17), and whether a unary expression was read.
ghost use Rattle.std.specs.Prelude.{◌≡◌, ◌≢◌, ◌≤◌, Ok, IfErr, OnErr, IsErrOf};
ghost use Rattle.c_grammar.specs.State as state;
ghost use Rattle.c_grammar.specs.Terminals as w;
ghost use Rattle.c_cursor.specs.Parsers.{sees, take, change, Takes};

use super::Cursor;
use crate::error::ReadError;
use c_kinds::kinds::is_bump;
use c_kinds::operators::{is_assignment, is_binary, is_unary};
use c_tree::Lexeme;

impl<'a> Cursor<'a> {
    /// Whether the next token is `++` or `--`.
    pub fn sees_bump(&self) -> bool
        ensures { result ≡ sees w.bump self.now }
    {
        match self.rest {
            [] => false,
            [token, ..] => is_bump(&token.kind),
        }
    }

    /// Whether the next token is a unary operator other than `++`, `--` and `sizeof`.
    pub fn sees_unary_operator(&self) -> bool
        ensures { result ≡ sees w.unary_operator self.now }
    {
        match self.rest {
            [] => false,
            [token, ..] => is_unary(&token.kind),
        }
    }

    /// Whether the next token is a binary operator of the level.
    pub fn sees_binary_operator(&self, level: u8) -> bool
        ensures { result ≡ sees (w.binary_operator level) self.now }
    {
        match self.rest {
            [] => false,
            [token, ..] => is_binary(level, &token.kind),
        }
    }

    /// Whether the next token is an assignment operator behind a unary expression.
    pub fn sees_assignment_operator(&self) -> bool
        ensures { result ≡ sees w.assignment_operator self.now }
    {
        match self.rest {
            [] => false,
            [token, ..] => self.unary && is_assignment(&token.kind),
        }
    }

    /// `++` or `--` before its operand.
    pub fn take_bump_before(&mut self) -> Result<&'a Lexeme, ReadError>
        ensures takes { Takes (take w.bump self.old) result self.new }
        ensures needs_no_memory { IfErr result (λ e. e ≢ ReadError.NoMemory) }
        ensures stays { OnErr result (self.new ≡ self.old) }
    {
        let fits = self.sees_bump();
        self.take_if(fits)
    }

    /// A unary operator other than `++`, `--` and `sizeof`.
    pub fn take_unary_operator(&mut self) -> Result<&'a Lexeme, ReadError>
        ensures takes { Takes (take w.unary_operator self.old) result self.new }
        ensures needs_no_memory { IfErr result (λ e. e ≢ ReadError.NoMemory) }
        ensures stays { OnErr result (self.new ≡ self.old) }
    {
        let fits = self.sees_unary_operator();
        self.take_if(fits)
    }

    /// A binary operator of the level behind its operand, which becomes one deeper.
    pub fn take_binary_operator(&mut self, level: u8) -> Result<&'a Lexeme, ReadError>
        ensures takes { Takes (take (w.binary_operator level) self.old) result self.new }
        ensures full { IsErrOf result ReadError.NoMemory → usize.MAX ≤ state.top (state.read self.old.state).nesting.deepest }
        ensures stays { OnErr result (self.new ≡ self.old) }
    {
        let fits = self.sees_binary_operator(level);
        self.take_operator_if(fits)
    }

    /// An assignment operator behind a unary expression, which becomes one deeper.
    pub fn take_assignment_operator(&mut self) -> Result<&'a Lexeme, ReadError>
        ensures takes { Takes (take w.assignment_operator self.old) result self.new }
        ensures full { IsErrOf result ReadError.NoMemory → usize.MAX ≤ state.top (state.read self.old.state).nesting.deepest }
        ensures stays { OnErr result (self.new ≡ self.old) }
    {
        let fits = self.sees_assignment_operator();
        self.take_operator_if(fits)
    }

    /// What was read last is a unary expression.
    #[tactic(auto, unfolding(crate::specs::Parsers::change))]
    pub fn note_unary(&mut self)
        ensures { change state.is_unary self.old ≡ Ok (tt, self.new) }
    {
        self.unary = true;
    }

    /// What was read last is no unary expression.
    #[tactic(auto, unfolding(crate::specs::Parsers::change))]
    pub fn note_no_unary(&mut self)
        ensures { change state.is_no_unary self.old ≡ Ok (tt, self.new) }
    {
        self.unary = false;
    }
}
