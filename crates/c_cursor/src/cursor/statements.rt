//! What statements are made of (ISO/IEC 9899:1999, 6.8), and what they change.
ghost use Rattle.std.specs.Prelude.{◌≡◌, ◌≢◌, ◌≤◌, Ok, IfErr, OnErr, IsErrOf};
ghost use Rattle.c_grammar.specs.State as state;
ghost use Rattle.c_grammar.specs.Terminals as w;
ghost use Rattle.c_cursor.specs.Parsers.{sees, take, change, Takes};

use super::Cursor;
use crate::error::ReadError;
use c_kinds::keywords::is_word;
use c_syntax::words;
use c_tree::Lexeme;

impl<'a> Cursor<'a> {
    /// Whether the next token is an `else` that may stand here.
    pub fn sees_else(&self) -> bool
        ensures { result ≡ sees w.else self.now }
    {
        self.sees_word(words::ELSE) && !self.dangling
    }

    /// Whether the next token is the keyword, of a loop.
    pub fn sees_loop_word(&self, word: u8) -> bool
        ensures { result ≡ sees (w.loop_word word) self.now }
    {
        self.sees_word(word)
    }

    /// An `else`, which belongs to the nearest `if`.
    pub fn take_else(&mut self) -> Result<&'a Lexeme, ReadError>
        ensures takes { Takes (take w.else self.old) result self.new }
        ensures needs_no_memory { IfErr result (λ e. e ≢ ReadError.NoMemory) }
        ensures stays { OnErr result (self.new ≡ self.old) }
    {
        let fits = self.sees_else();
        self.take_if(fits)
    }

    /// The keyword of a loop, which opens. A count of loops that no memory could hold counts as want of memory.
    #[tactic(auto, unfolding(crate::specs::Parsers::take))]
    pub fn take_loop_word(&mut self, word: u8) -> Result<&'a Lexeme, ReadError>
        ensures takes { Takes (take (w.loop_word word) self.old) result self.new }
        ensures full { IsErrOf result ReadError.NoMemory → usize.MAX ≤ self.old.state.loops.around }
        ensures stays { OnErr result (self.new ≡ self.old) }
    {
        match self.rest {
            [token, rest @ ..] if is_word(word, &token.kind) => {
                self.loops.enter()?;
                self.pass(token.place, rest);
                Ok(token)
            }
            _ => Err(self.refuse()),
        }
    }

    /// A loop ends.
    #[tactic(auto, unfolding(crate::specs::Parsers::change))]
    pub fn leave_loop(&mut self)
        ensures { change state.leave_loop self.old ≡ Ok (tt, self.new) }
    {
        self.loops.leave();
    }

    /// Whether the keyword of a thirteenth loop within loops was read.
    pub fn loops_too_deep(&self) -> bool
        ensures { result ≡ self.now.state.loops.passed }
    {
        self.loops.passed()
    }

    /// What was read last is a statement that ends with an `if` without `else`.
    #[tactic(auto, unfolding(crate::specs::Parsers::change))]
    pub fn leave_dangling(&mut self)
        ensures { change state.leave_dangling self.old ≡ Ok (tt, self.new) }
    {
        self.dangling = true;
    }
}
