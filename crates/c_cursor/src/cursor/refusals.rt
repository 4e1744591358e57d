//! Why a source is refused at a token: a limit that is passed, or a construct that the profile leaves out.
ghost use Rattle.std.specs.Prelude.{◌≡◌};
ghost use Rattle.c_cursor.specs.Parsers.{within_limits, Reads};

use super::Cursor;
use crate::error::ReadError;
use sv_base::{FaultKind, SourceFault};

impl<'a> Cursor<'a> {
    /// The first token whose reading passed a limit, with the limit: that of the nesting before that of the loops.
    pub fn past_limit(&self) -> Option<SourceFault> {
        self.past
    }

    /// Refuses where a limit was passed, so that nothing more is read.
    #[tactic(auto, unfolding(crate::specs::Parsers::within_limits))]
    pub fn stop_past_limit(&self) -> Result<(), ReadError>
        ensures { Reads (within_limits self.now) result self.now }
    {
        if self.nesting.passed() || self.loops.passed() {
            Err(ReadError::TooDeep)
        } else {
            Ok(())
        }
    }

    /// The next token, with which nothing goes on, shows a construct that the profile leaves out.
    pub fn show(&mut self, construct: FaultKind)
        ensures { self.new ≡ self.old }
    {
        self.shown = Some(construct);
    }

    /// What the token shows, with which nothing goes on.
    pub fn shown(&self) -> Option<FaultKind> {
        self.shown
    }
}
