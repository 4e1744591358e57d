ghost use Rattle.std.specs.Prelude.{◌≡◌, ◌∷◌, ◌+◌, ◌-◌, ◌≤◌, max, OnOk, OnErr};
ghost use Rattle.c_grammar.specs.State as state;

use sqlite_items::Items;
use std::alloc::{AllocError, Global};
use std::marker::Model;
use sv_base::limits;

/// How deep nodes are nested: how many are open, and for each operand that is being read, the deepest node in it.
#[derive(Drop)]
pub struct Nesting {
    depth: usize,
    /// In the innermost operand.
    top: usize,
    /// In those around it, the innermost last.
    around: Items<usize>,
    passed: bool,
}

impl Model for Nesting {
    ghost use Rattle.std.specs.Prelude.{◌∷◌, reverse};
    ghost use Rattle.c_grammar.specs.State as state;

    ghost Value = { state.Nesting };

    ghost view = { λ n. record { depth = n.depth; deepest = n.top ∷ reverse n.around; passed = n.passed } };
}

impl Nesting {
    /// Nothing is open.
    pub fn new(alloc: Global) -> Nesting
        ensures { result ≡ state.start.nesting }
    {
        Nesting {
            depth: 0,
            top: 0,
            around: Items::new(alloc),
            passed: false,
        }
    }

    /// Whether a node stood deeper than 256.
    pub fn passed(&self) -> bool
        ensures { result ≡ self.now.passed }
    {
        self.passed
    }

    /// A node stands this deep in the innermost operand.
    fn reach(&mut self, depth: usize)
        ensures { self.new ≡ state.reach depth self.old }
    {
        self.top = self.top.max(depth);
        if depth > limits::NESTING {
            self.passed = true;
        }
    }

    /// Any token is read.
    pub fn read(&mut self)
        ensures { self.new ≡ state.reach self.old.depth self.old }
    {
        self.reach(self.depth);
    }

    /// An operator behind its operand is read, which it puts one deeper. A count that no memory could hold counts as want of memory.
    pub fn read_operator(&mut self) -> Result<(), AllocError>
        ensures ok { OnOk result (let read = state.reach self.old.depth self.old in self.new ≡ state.reach (state.top read.deepest + 1) read) }
        ensures full { OnErr result (usize.MAX ≤ max (state.top self.old.deepest) self.old.depth) }
        ensures stays { OnErr result (self.new ≡ self.old) }
    {
        let Some(deeper) = self.top.max(self.depth).checked_add(1) else {
            return Err(AllocError);
        };
        self.read();
        self.reach(deeper);
        Ok(())
    }

    /// An operand begins.
    pub fn begin_operand(&mut self) -> Result<(), AllocError>
        ensures ok { OnOk result (self.new ≡ record self.old { deepest = 0 ∷ self.old.deepest }) }
        ensures stays { OnErr result (self.new ≡ self.old) }
    {
        self.around.push(self.top)?;
        self.top = 0;
        Ok(())
    }

    /// An operand ends, and joins the one around it.
    pub fn end_operand(&mut self)
        ensures { self.new ≡ record self.old { deepest = max (state.top self.old.deepest) (state.top (state.below self.old.deepest)) ∷ state.below (state.below self.old.deepest) } }
    {
        if let Some(around) = self.around.pop() {
            self.top = self.top.max(around);
        }
    }

    /// A node opens, and with it an operand. A count that no memory could hold counts as want of memory.
    pub fn enter(&mut self) -> Result<(), AllocError>
        ensures ok { OnOk result (self.new ≡ record { depth = self.old.depth + 1; deepest = 0 ∷ self.old.deepest; passed = self.old.passed }) }
        ensures stays { OnErr result (self.new ≡ self.old) }
    {
        let Some(depth) = self.depth.checked_add(1) else {
            return Err(AllocError);
        };
        self.begin_operand()?;
        self.depth = depth;
        Ok(())
    }

    /// A node closes, and its operand joins the one around it.
    pub fn leave(&mut self)
        ensures depth { self.new.depth ≡ self.old.depth - 1 }
        ensures deepest { self.new.deepest ≡ max (state.top self.old.deepest) (state.top (state.below self.old.deepest)) ∷ state.below (state.below self.old.deepest) }
        ensures passed { self.new.passed ≡ self.old.passed }
    {
        self.end_operand();
        self.depth = self.depth.saturating_sub(1);
    }
}
