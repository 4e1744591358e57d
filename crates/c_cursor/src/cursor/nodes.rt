//! Nodes and operands that open and close, and how deep they nest.
ghost use Rattle.std.specs.Prelude.{◌≡◌, Ok, OnErr};
ghost use Rattle.c_grammar.specs.State as state;
ghost use Rattle.c_cursor.specs.Parsers.{change, Reads};

use super::Cursor;
use crate::error::ReadError;

impl<'a> Cursor<'a> {
    /// A node opens, and with it an operand.
    #[tactic(auto, unfolding(crate::specs::Parsers::change))]
    pub fn enter(&mut self) -> Result<(), ReadError>
        ensures changes { Reads (change state.enter self.old) result self.new }
        ensures stays { OnErr result (self.new ≡ self.old) }
    {
        self.nesting.enter()?;
        Ok(())
    }

    /// A node closes, and its operand joins the one around it.
    #[tactic(auto, unfolding(crate::specs::Parsers::change))]
    pub fn leave(&mut self)
        ensures { change state.leave self.old ≡ Ok (tt, self.new) }
    {
        self.nesting.leave();
    }

    /// An operand begins.
    #[tactic(auto, unfolding(crate::specs::Parsers::change))]
    pub fn begin_operand(&mut self) -> Result<(), ReadError>
        ensures changes { Reads (change state.begin_operand self.old) result self.new }
        ensures stays { OnErr result (self.new ≡ self.old) }
    {
        self.nesting.begin_operand()?;
        Ok(())
    }

    /// An operand ends, and joins the one around it.
    #[tactic(auto, unfolding(crate::specs::Parsers::change))]
    pub fn end_operand(&mut self)
        ensures { change state.end_operand self.old ≡ Ok (tt, self.new) }
    {
        self.nesting.end_operand();
    }

    /// Whether a token was read that makes the nesting pass 256.
    pub fn nests_too_deep(&self) -> bool
        ensures { result ≡ self.now.state.nesting.passed }
    {
        self.nesting.passed()
    }
}
