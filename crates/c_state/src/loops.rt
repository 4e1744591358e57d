ghost use Rattle.std.specs.Prelude.{◌≡◌, ◌+◌, ◌-◌, ◌≤◌, ◌||◌, nat_lt, OnOk, OnErr};
ghost use Rattle.c_grammar.specs.State as state;

use std::alloc::AllocError;
use std::marker::Model;
use sv_base::limits;

/// How deep loops are nested.
#[derive(Drop)]
pub struct Loops {
    around: usize,
    passed: bool,
}

impl Model for Loops {
    ghost use Rattle.c_grammar.specs.State as state;

    ghost Value = { state.Loops };

    ghost view = { λ a. record { around = a.around; passed = a.passed } };
}

impl Loops {
    /// None is open.
    pub fn new() -> Loops
        ensures { result ≡ state.start.loops }
    {
        Loops {
            around: 0,
            passed: false,
        }
    }

    /// Whether the keyword of a thirteenth loop was read.
    pub fn passed(&self) -> bool
        ensures { result ≡ self.now.passed }
    {
        self.passed
    }

    /// The keyword of a loop is read. A count that no memory could hold counts as want of memory.
    pub fn enter(&mut self) -> Result<(), AllocError>
        ensures ok { OnOk result (self.new ≡ record { around = self.old.around + 1; passed = self.old.passed || nat_lt 12 (self.old.around + 1) }) }
        ensures full { OnErr result (usize.MAX ≤ self.old.around) }
        ensures stays { OnErr result (self.new ≡ self.old) }
    {
        let Some(around) = self.around.checked_add(1) else {
            return Err(AllocError);
        };
        self.around = around;
        if around > limits::LOOPS {
            self.passed = true;
        }
        Ok(())
    }

    /// A loop ends.
    pub fn leave(&mut self)
        ensures { self.new ≡ record self.old { around = self.old.around - 1 } }
    {
        self.around = self.around.saturating_sub(1);
    }
}
