//! The place of a parser: the tokens that are left, and the state that decides which may come next.

ghost use Rattle.std.specs.Prelude.{◌≡◌, ◌≢◌, ◌≤◌, Ok, Err, IfOk, IfErr, IsErrOf, OnOk, OnErr, length};
ghost use Rattle.c_grammar.specs.State as state;
ghost use Rattle.c_grammar.specs.Terminals as w;
ghost use Rattle.c_cursor.specs.Parsers.{sees, take, turns};

mod ahead;
mod names;
mod nodes;
mod operands;
mod operators;
mod refusals;
mod scopes;
mod specifiers;
mod statements;
mod tokens;

use crate::error::ReadError;
use c_kinds::kinds::{is_name, name_in};
use c_state::{Frames, Loops, Nesting, Scopes};
use c_tree::Lexeme;
use std::alloc::Global;
use std::marker::Model;
use sv_base::{FaultKind, Place, SourceFault, faults};

/// Where a parser stands. A call that takes the next token answers `Wrong` where it does not fit, or where there is none, and none is seen
/// where there is none.
#[derive(Drop)]
pub struct Cursor<'a> {
    rest: &'a [Lexeme],
    scopes: Scopes,
    frames: Frames,
    unary: bool,
    dangling: bool,
    nesting: Nesting,
    loops: Loops,
    /// The first token whose reading passed a limit.
    past: Option<SourceFault>,
    /// What the next token shows, where nothing goes on with it.
    shown: Option<FaultKind>,
}

impl<'a> Model for Cursor<'a> {
    ghost use Rattle.c_cursor.specs.Parsers.{Input};

    ghost Value = { Input };

    ghost view = { λ c. record {
      state = record {
        scopes = c.scopes;
        frames = c.frames;
        unary = c.unary;
        dangling = c.dangling;
        nesting = c.nesting;
        loops = c.loops;
      };
      rest = c.rest.now;
    } };
}

impl<'a> Cursor<'a> {
    /// At the first token of a file.
    pub fn new(alloc: Global, tokens: &'a [Lexeme]) -> Result<Cursor<'a>, ReadError>
        ensures starts { IfOk result (λ c. c ≡ record { state = state.start; rest = tokens.now }) }
        ensures needs_memory { IfErr result (λ e. e ≡ ReadError.NoMemory) }
    {
        Ok(Cursor {
            rest: tokens,
            scopes: Scopes::new(alloc)?,
            frames: Frames::new(alloc),
            unary: false,
            dangling: false,
            nesting: Nesting::new(alloc),
            loops: Loops::new(),
            past: None,
            shown: None,
        })
    }

    /// The turns of a loop that takes a token in each but the last.
    pub fn turns(&self) -> usize
        ensures { result ≡ turns self.now }
    {
        self.rest.len() + 1
    }

    // A token is read, up to `rest`.
    fn pass(&mut self, place: Place, rest: &'a [Lexeme])
        ensures { self.new ≡ record { state = state.read self.old.state; rest = rest.now } }
    {
        self.rest = rest;
        self.dangling = false;
        self.nesting.read();
        self.watch(place);
    }

    // Reads the next token if it fits: then a terminal that fits it too takes it, up to what the terminal changes beside.
    #[tactic(auto, unfolding(crate::specs::Parsers::take))]
    fn take_if(&mut self, fits: bool) -> Result<&'a Lexeme, ReadError>
        ensures takes { (terminal : w.Terminal) → fits ≡ sees terminal self.old → IfOk result (λ token. take terminal self.old ≡ Ok (token.now, record { state = terminal.after self.old.state token.now; rest = self.new.rest })) }
        ensures reads { OnOk result (self.new.state ≡ state.read self.old.state) }
        ensures refuses { (terminal : w.Terminal) → fits ≡ sees terminal self.old → IfErr result (λ e. take terminal self.old ≡ Err e) }
        ensures needs_no_memory { IfErr result (λ e. e ≢ ReadError.NoMemory) }
        ensures stays { OnErr result (self.new ≡ self.old) }
    {
        match self.rest {
            [token, rest @ ..] if fits => {
                self.pass(token.place, rest);
                Ok(token)
            }
            _ => Err(self.refuse()),
        }
    }

    // The same of an operator behind its operand, which becomes one deeper.
    #[tactic(auto, unfolding(crate::specs::Parsers::take))]
    fn take_operator_if(&mut self, fits: bool) -> Result<&'a Lexeme, ReadError>
        ensures takes { (terminal : w.Terminal) → fits ≡ sees terminal self.old → IfOk result (λ token. take terminal self.old ≡ Ok (token.now, record { state = terminal.after self.old.state token.now; rest = self.new.rest })) }
        ensures reads { OnOk result (self.new.state ≡ state.deepen (state.read self.old.state)) }
        ensures refuses { (terminal : w.Terminal) → fits ≡ sees terminal self.old → IfErr result (λ e. e ≢ ReadError.NoMemory → take terminal self.old ≡ Err e) }
        ensures full { IsErrOf result ReadError.NoMemory → usize.MAX ≤ state.top (state.read self.old.state).nesting.deepest }
        ensures stays { OnErr result (self.new ≡ self.old) }
    {
        match self.rest {
            [token, rest @ ..] if fits => {
                self.pass_operator(token.place, rest)?;
                Ok(token)
            }
            _ => Err(self.refuse()),
        }
    }

    // An operator behind its operand is read, up to `rest`.
    fn pass_operator(&mut self, place: Place, rest: &'a [Lexeme]) -> Result<(), ReadError>
        ensures passes { OnOk result (self.new ≡ record { state = state.deepen (state.read self.old.state); rest = rest.now }) }
        ensures full { OnErr result (usize.MAX ≤ state.top (state.read self.old.state).nesting.deepest) }
        ensures stays { OnErr result (self.new ≡ self.old) }
        ensures needs_memory { IfErr result (λ e. e ≡ ReadError.NoMemory) }
    {
        self.nesting.read_operator()?;
        self.rest = rest;
        self.dangling = false;
        self.watch(place);
        Ok(())
    }

    // Keeps the first token whose reading passes a limit.
    fn watch(&mut self, place: Place)
        ensures { self.new ≡ self.old }
    {
        if self.past.is_some() {
            return;
        }
        if self.nesting.passed() {
            self.past = Some(SourceFault {
                kind: faults::TOO_DEEP,
                place,
            });
        } else if self.loops.passed() {
            self.past = Some(SourceFault {
                kind: faults::TOO_MANY_LOOPS,
                place,
            });
        }
    }

    // The next token does not fit.
    fn refuse(&self) -> ReadError
        ensures { result ≡ ReadError.Wrong (length self.now.rest) }
    {
        ReadError::Wrong(self.rest.len())
    }

    // Whether it is the name of an object, a function or an enumeration constant.
    fn is_value(&self, token: &Lexeme) -> bool
        ensures { result ≡ w.value_name.fits self.now.state token.now }
    {
        is_name(&token.kind) && !self.scopes.names_type(name_in(&token.kind))
    }
}
