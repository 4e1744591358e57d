ghost use Rattle.std.specs.Prelude.{◌≡◌, [], ◌∷◌, true, false, Some, OnOk, OnErr};
ghost use Rattle.c_grammar.specs.State as state;

use crate::frame::Frame;
use sqlite_items::Items;
use std::alloc::{AllocError, Global};
use std::marker::Model;
use std::mem::replace;

/// The declarations, parameters, type names and enumerators that are being read, one within another.
#[derive(Drop)]
pub struct Frames {
    is_open: bool,
    /// The innermost one, of which nothing was read where none is open.
    first: Frame,
    /// Those around it, the innermost last.
    around: Vec<Frame>,
}

impl Model for Frames {
    ghost use Rattle.std.specs.Prelude.{◌≡◌, ◌∷◌, [], List, false, if◌then◌else◌, reverse};
    ghost use Rattle.c_grammar.specs.State as state;

    ghost Value = { List state.Frame };

    ghost view = { λ f. if f.is_open then f.first ∷ reverse f.around.items else [] };

    ghost invariant = { λ f. f.is_open ≡ false → (f.first ≡ state.no_frame) × (f.around.items ≡ []) };
}

impl Frames {
    /// None is open.
    pub fn new(alloc: Global) -> Frames
        ensures { result ≡ [] }
    {
        Frames {
            is_open: false,
            first: Frame::new(alloc),
            around: Vec::new(alloc),
        }
    }

    /// The innermost one.
    pub fn first(&self) -> &Frame
        ensures { result.now ≡ state.first_frame self.now }
    {
        &self.first
    }

    /// One begins.
    pub fn begin(&mut self) -> Result<(), AllocError>
        ensures ok { OnOk result (self.new ≡ state.no_frame ∷ self.old) }
        ensures err { OnErr result (self.new ≡ self.old) }
    {
        if !self.is_open {
            self.is_open = true;
            return Ok(());
        }
        let around = replace(&mut self.first, Frame::new(*self.around.allocator()));
        match self.around.push(around) {
            Ok(()) => Ok(()),
            Err(refused) => {
                self.first = refused.value;
                Err(AllocError)
            }
        }
    }

    /// The innermost one ends.
    pub fn finish(&mut self)
        ensures { self.new ≡ state.enclosing self.old }
    {
        match self.around.pop() {
            Some(frame) => self.first = frame,
            None => {
                self.first = Frame::new(*self.around.allocator());
                self.is_open = false;
            }
        }
    }

    /// One begins where none is open.
    pub fn begin_first(&mut self)
        ensures { self.new ≡ state.first_frame self.old ∷ state.enclosing self.old }
    {
        self.is_open = true;
    }

    /// `typedef` is among its specifiers.
    pub fn see_typedef(&mut self)
        ensures { self.new ≡ record (state.first_frame self.old) { is_typedef = true } ∷ state.enclosing self.old }
    {
        self.is_open = true;
        self.first.see_typedef();
    }

    /// A type word is among its specifiers.
    pub fn see_type(&mut self)
        ensures { self.new ≡ record (state.first_frame self.old) { has_type = true } ∷ state.enclosing self.old }
    {
        self.is_open = true;
        self.first.see_type();
    }

    /// It declares the name.
    pub fn hold(&mut self, name: u32)
        ensures { self.new ≡ record (state.first_frame self.old) { held = Some name; direct = true; parameters = [] } ∷ state.enclosing self.old }
    {
        self.is_open = true;
        self.first.hold(*self.around.allocator(), name);
    }

    /// What comes next does not stand directly behind its name.
    pub fn indirect(&mut self)
        ensures { self.new ≡ record (state.first_frame self.old) { direct = false } ∷ state.enclosing self.old }
    {
        self.is_open = true;
        self.first.indirect();
    }

    /// The parameter list directly behind its name has these names, the latest first.
    pub fn keep(&mut self, parameters: Items<(u32, bool)>)
        ensures { self.new ≡ record (state.first_frame self.old) { direct = false; parameters = parameters } ∷ state.enclosing self.old }
    {
        self.is_open = true;
        self.first.keep(parameters);
    }
}
