ghost use Rattle.std.specs.Prelude.{◌≡◌, true, false, [], Some};
ghost use Rattle.c_grammar.specs.State as state;

use sqlite_items::Items;
use std::alloc::Global;
use std::marker::Model;

/// What was read of a declaration, parameter, type name or enumerator.
#[derive(Drop)]
pub struct Frame {
    is_typedef: bool,
    has_type: bool,
    held: Option<u32>,
    direct: bool,
    /// The latest first.
    parameters: Items<(u32, bool)>,
}

impl Model for Frame {
    ghost use Rattle.c_grammar.specs.State as state;

    ghost Value = { state.Frame };

    ghost view = { λ f. record { is_typedef = f.is_typedef; has_type = f.has_type; held = f.held; direct = f.direct; parameters = f.parameters } };
}

impl Frame {
    /// Nothing was read.
    pub fn new(alloc: Global) -> Frame
        ensures { result ≡ state.no_frame }
    {
        Frame {
            is_typedef: false,
            has_type: false,
            held: None,
            direct: false,
            parameters: Items::new(alloc),
        }
    }

    /// Whether `typedef` is among the specifiers.
    pub fn is_typedef(&self) -> bool
        ensures { result ≡ self.now.is_typedef }
    {
        self.is_typedef
    }

    /// Whether a type word is among the specifiers.
    pub fn has_type(&self) -> bool
        ensures { result ≡ self.now.has_type }
    {
        self.has_type
    }

    /// The declared name.
    pub fn held(&self) -> Option<u32>
        ensures { result ≡ self.now.held }
    {
        self.held
    }

    /// Whether what comes next stands directly behind the declared name.
    pub fn is_direct(&self) -> bool
        ensures { result ≡ self.now.direct }
    {
        self.direct
    }

    /// The names of the parameter list directly behind the declared name, the latest first.
    pub fn parameters(&self) -> &[(u32, bool)]
        ensures { result.now ≡ self.now.parameters }
    {
        self.parameters.as_slice()
    }

    /// `typedef` is among the specifiers.
    pub fn see_typedef(&mut self)
        ensures { self.new ≡ record self.old { is_typedef = true } }
    {
        self.is_typedef = true;
    }

    /// A type word is among the specifiers.
    pub fn see_type(&mut self)
        ensures { self.new ≡ record self.old { has_type = true } }
    {
        self.has_type = true;
    }

    /// The declared name.
    pub fn hold(&mut self, alloc: Global, name: u32)
        ensures { self.new ≡ record self.old { held = Some name; direct = true; parameters = [] } }
    {
        self.held = Some(name);
        self.direct = true;
        self.parameters = Items::new(alloc);
    }

    /// What comes next does not stand directly behind the declared name.
    pub fn indirect(&mut self)
        ensures { self.new ≡ record self.old { direct = false } }
    {
        self.direct = false;
    }

    /// The parameter list directly behind the declared name has these names.
    pub fn keep(&mut self, parameters: Items<(u32, bool)>)
        ensures { self.new ≡ record self.old { direct = false; parameters = parameters } }
    {
        self.direct = false;
        self.parameters = parameters;
    }
}
