ghost use Rattle.std.specs.Prelude.{◌≡◌, [], ◌∷◌, IfOk, OnOk, OnErr, MatchOption, reverse};
ghost use Rattle.c_grammar.specs.State as state;
ghost use Rattle.c_state.specs.Log.{scopes_of, with_names};

use crate::visible::{entry_of, make_room, put};
use sqlite_items::Items;
use std::alloc::{AllocError, Global};
use std::marker::Model;

/// A declaration: of which name, whether it is a typedef, and what the table of visible declarations had before.
#[derive(Clone, Copy)]
pub struct Declaration {
    pub name: u32,
    pub is_typedef: bool,
    pub hidden: Option<bool>,
}

/// What changes the scopes.
#[derive(Clone, Copy)]
pub enum Step {
    Opened,
    Declared(Declaration),
}

/// The names that the open scopes declare (ISO/IEC 9899:1999, 6.2.1), each with whether it is a typedef name (6.7.7).
/// However many there are, a name is looked up at one place.
#[derive(Drop)]
pub struct Scopes {
    /// By the number of a name, whether its innermost visible declaration is a typedef.
    table: Vec<Option<bool>>,
    /// How the scopes came about, the latest step last.
    log: Items<Step>,
}

impl Model for Scopes {
    ghost use Rattle.std.specs.Prelude.{List, reverse};
    ghost use Rattle.c_grammar.specs.State as state;

    ghost Value = { List state.Scope };

    ghost use Rattle.c_state.specs.Log.{scopes_of, Agrees};

    ghost view = { λ s. scopes_of (reverse s.log) };

    ghost invariant = { λ s. Agrees s.table.items (reverse s.log) };
}

impl Scopes {
    /// One scope, without names.
    pub fn new(alloc: Global) -> Result<Scopes, AllocError>
        ensures { IfOk result (λ scopes. scopes ≡ [] ∷ []) }
    {
        let mut log = Items::new(alloc);
        log.push(Step::Opened)?;
        Ok(Scopes {
            table: Vec::new(alloc),
            log,
        })
    }

    /// Whether the innermost visible declaration of the name is a typedef.
    pub fn names_type(&self, name: u32) -> bool
        ensures { result ≡ state.names_type self.now name }
    {
        match entry_of(&self.table, name) {
            Some(is_typedef) => is_typedef,
            None => false,
        }
    }

    /// Declares a name in the innermost scope.
    pub fn declare(&mut self, name: u32, is_typedef: bool) -> Result<(), AllocError>
        ensures ok { OnOk result (self.new ≡ state.with_name name is_typedef self.old) }
        ensures err { OnErr result (self.new ≡ self.old) }
    {
        make_room(&mut self.table, name)?;
        let hidden = entry_of(&self.table, name);
        self.log.push(Step::Declared(Declaration {
            name,
            is_typedef,
            hidden,
        }))?;
        put(&mut self.table, name, Some(is_typedef));
        Ok(())
    }

    /// Opens a scope.
    pub fn open(&mut self) -> Result<(), AllocError>
        ensures ok { OnOk result (self.new ≡ [] ∷ self.old) }
        ensures err { OnErr result (self.new ≡ self.old) }
    {
        self.log.push(Step::Opened)?;
        Ok(())
    }

    /// Closes the innermost scope, whose names then mean what they meant before.
    pub fn close(&mut self)
        ensures { self.new ≡ state.outer self.old }
    {
        while let Some(_declared) = self.take_back() {}
    }

    // Takes back the latest declaration of the innermost scope, or where it has none closes it.
    fn take_back(&mut self) -> Option<(u32, bool)>
        ensures { MatchOption result (self.new ≡ state.outer self.old) (λ d. self.old ≡ state.with_name d.0 d.1 self.new) }
    {
        match self.log.pop() {
            Some(Step::Declared(declared)) => {
                put(&mut self.table, declared.name, declared.hidden);
                Some((declared.name, declared.is_typedef))
            }
            Some(Step::Opened) => None,
            None => None,
        }
    }

    /// The names of the innermost scope, the latest first.
    pub fn innermost(&self) -> Result<Items<(u32, bool)>, AllocError>
        ensures { IfOk result (λ names. names ≡ state.innermost self.now) }
    {
        latest_names(*self.table.allocator(), self.log.as_slice())
    }

    /// Opens a scope with names, of which the latest comes first.
    pub fn open_with(&mut self, names: &[(u32, bool)]) -> Result<(), AllocError>
        ensures ok { OnOk result (self.new ≡ names.now ∷ self.old) }
        ensures err { OnErr result (self.new ≡ self.old) }
    {
        self.open()?;
        match self.declare_all(names) {
            Ok(()) => Ok(()),
            Err(fault) => {
                self.close();
                Err(fault)
            }
        }
    }

    // Declares names in the innermost scope, the last one first.
    fn declare_all(&mut self, names: &[(u32, bool)]) -> Result<(), AllocError>
        ensures ok { OnOk result (self.new ≡ with_names names.now self.old) }
        ensures outer { state.outer self.new ≡ state.outer self.old }
    {
        let mut rest = names;
        while let [before @ .., (name, is_typedef)] = rest {
            self.declare(*name, *is_typedef)?;
            rest = before;
        }
        Ok(())
    }
}

// The names that were declared since the latest scope opened, the latest first.
fn latest_names(alloc: Global, log: &[Step]) -> Result<Items<(u32, bool)>, AllocError>
    ensures { IfOk result (λ names. names ≡ state.innermost (scopes_of (reverse log.now))) }
{
    let mut names = Items::new(alloc);
    let mut rest = log;
    while let [before @ .., Step::Declared(declared)] = rest {
        names.push((declared.name, declared.is_typedef))?;
        rest = before;
    }
    Ok(names)
}
