//! Declarations that begin and end, and the scopes of what they declare (ISO/IEC 9899:1999, 6.2.1).
ghost use Rattle.std.specs.Prelude.{◌≡◌, Ok, OnErr};
ghost use Rattle.c_grammar.specs.State as state;
ghost use Rattle.c_cursor.specs.Parsers.{change, Reads};

use super::Cursor;
use crate::error::ReadError;

impl<'a> Cursor<'a> {
    /// A declaration, parameter, type name or enumerator begins.
    #[tactic(auto, unfolding(crate::specs::Parsers::change))]
    pub fn begin(&mut self) -> Result<(), ReadError>
        ensures changes { Reads (change state.begin self.old) result self.new }
        ensures stays { OnErr result (self.new ≡ self.old) }
    {
        self.frames.begin()?;
        Ok(())
    }

    /// A declaration, parameter, type name or enumerator ends.
    #[tactic(auto, unfolding(crate::specs::Parsers::change))]
    pub fn finish(&mut self)
        ensures { change state.finish self.old ≡ Ok (tt, self.new) }
    {
        self.frames.finish();
    }

    /// The specifiers are over, at a `*`, a nesting `(` or a `,`: a typedef name that comes next is no type word, and may be declared anew.
    #[tactic(auto, unfolding(crate::specs::Parsers::change))]
    pub fn end_specifiers(&mut self)
        ensures { change state.end_specifiers self.old ≡ Ok (tt, self.new) }
    {
        self.frames.see_type();
    }

    /// What comes next does not stand directly behind the declared name.
    #[tactic(auto, unfolding(crate::specs::Parsers::change))]
    pub fn indirect(&mut self)
        ensures { change state.indirect self.old ≡ Ok (tt, self.new) }
    {
        self.frames.indirect();
    }

    /// The declared name becomes visible.
    #[tactic(auto, unfolding(crate::specs::Parsers::change))]
    pub fn declare(&mut self) -> Result<(), ReadError>
        ensures changes { Reads (change state.declare self.old) result self.new }
        ensures stays { OnErr result (self.new ≡ self.old) }
    {
        let frame = self.frames.first();
        let is_typedef = frame.is_typedef();
        match frame.held() {
            Some(name) => {
                self.scopes.declare(name, is_typedef)?;
                Ok(())
            }
            None => Ok(()),
        }
    }

    /// A scope opens.
    #[tactic(auto, unfolding(crate::specs::Parsers::change))]
    pub fn open_scope(&mut self) -> Result<(), ReadError>
        ensures changes { Reads (change state.open_scope self.old) result self.new }
        ensures stays { OnErr result (self.new ≡ self.old) }
    {
        self.scopes.open()?;
        Ok(())
    }

    /// The innermost scope closes.
    #[tactic(auto, unfolding(crate::specs::Parsers::change))]
    pub fn close_scope(&mut self)
        ensures { change state.close_scope self.old ≡ Ok (tt, self.new) }
    {
        self.scopes.close();
    }

    /// A parameter list ends, whose names are kept for a body where it stands directly behind the declared name.
    #[tactic(auto, unfolding(crate::specs::Parsers::change))]
    pub fn close_parameters(&mut self) -> Result<(), ReadError>
        ensures changes { Reads (change state.close_parameters self.old) result self.new }
        ensures stays { OnErr result (self.new ≡ self.old) }
    {
        if self.frames.first().is_direct() {
            let names = self.scopes.innermost()?;
            self.frames.keep(names);
        } else {
            self.frames.begin_first();
        }
        self.scopes.close();
        Ok(())
    }

    /// A scope opens with the names of the parameters directly behind the declared name.
    #[tactic(auto, unfolding(crate::specs::Parsers::change))]
    pub fn open_body(&mut self) -> Result<(), ReadError>
        ensures changes { Reads (change state.open_body self.old) result self.new }
        ensures stays { OnErr result (self.new ≡ self.old) }
    {
        let parameters = self.frames.first().parameters();
        self.scopes.open_with(parameters)?;
        Ok(())
    }
}
