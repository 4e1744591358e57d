ghost use Rattle.std.specs.Prelude.{◌≡◌};
ghost use Rattle.pt_facts.specs.computed.Bases.{IsCaller};
ghost use Rattle.pt_facts.specs.Nodes.{node_of, node_of_some, operand_node};

use crate::nodes::{node_of, node_of_some, operand_node};
use core_ir::{Function, Operand};

/// A function whose steps give constraints, among those that it may call.
#[derive(Clone, Copy)]
pub(crate) struct Caller<'a> {
    pub(crate) functions: &'a [Function],
    /// By function the node of its first register.
    pub(crate) bases: &'a [u32],
    /// The number of functions, external ones among them.
    pub(crate) count: u32,
    /// The node of the first register.
    pub(crate) base: u32,
    pub(crate) f: &'a Function,
}

impl<'a> Caller<'a> {
    pub(crate) fn node(&self, r: u32) -> Option<u32>
        requires { IsCaller self.now }
        ensures { result ≡ node_of self.now.base self.now.f.now r }
    {
        node_of(self.base, self.f, r)
    }

    pub(crate) fn operand(&self, a: Operand) -> Option<u32>
        requires { IsCaller self.now }
        ensures { result ≡ operand_node self.now.base self.now.f.now a }
    {
        operand_node(self.base, self.f, a)
    }

    pub(crate) fn node_of_some(&self, r: Option<u32>) -> Option<u32>
        requires { IsCaller self.now }
        ensures { result ≡ node_of_some self.now.base self.now.f.now r }
    {
        node_of_some(self.base, self.f, r)
    }
}
