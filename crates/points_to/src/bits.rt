//! Sets of `u32`, small where their members are few or near to one another.
ghost use Rattle.std.specs.Prelude.{◌≡◌, ℕ, ◌<◌, ◌==◌, ◌&&◌, ◌||◌, ◌↔◌, IsTrue, [], length, not, true, false, IfOk, OnOk, OnErr};
ghost use Rattle.points_to.specs.Sets.{has, IsSet};

use crate::block::Block;
use crate::{block, blocks};
use std::alloc::Global;
use std::marker::Model;
use sv_base::NoMemory;

/// A set of `u32`. A contract sees it as the ascending list of its members.
#[derive(Drop)]
pub struct Bits {
    blocks: Vec<Block>,
}

impl Model for Bits {
    ghost use Rattle.std.specs.Prelude.{List, ℕ};
    ghost use Rattle.points_to.specs.computed.Blocks.{members, AreBlocks};

    ghost Value = { List ℕ };

    ghost view = { λ b. members b.blocks.items };

    ghost invariant = { λ b. AreBlocks b.blocks.items };
}

impl Bits {
    /// The empty set. It takes no memory.
    pub fn new(alloc: Global) -> Bits
        ensures { result ≡ [] }
    {
        Bits {
            blocks: Vec::new(alloc),
        }
    }

    /// Whether the set has a member.
    pub fn contains(&self, member: u32) -> bool
        ensures { result ≡ has self.now member }
    {
        blocks::has(&self.blocks, member)
    }

    /// Whether the set has no member.
    pub fn is_empty(&self) -> bool
        ensures { result ≡ (length self.now == 0) }
    {
        blocks::none(&self.blocks)
    }

    /// Adds a member, and tells whether the set grew.
    pub fn add(&mut self, member: u32) -> Result<bool, NoMemory>
        ensures members { OnOk result ((n : ℕ) → has self.new n ≡ (has self.old n || n == member)) }
        ensures grew { IfOk result (λ grew. IsTrue grew ↔ (length self.old < length self.new)) }
        ensures same { IfOk result (λ grew. grew ≡ false → self.new ≡ self.old) }
        ensures err { OnErr result (self.new ≡ self.old) }
        ensures set { IsSet self.new }
    {
        if self.contains(member) {
            return Ok(false);
        }
        blocks::put(&mut self.blocks, block::block_of(member))?;
        Ok(true)
    }

    /// Adds each member of another set, and tells whether the set grew.
    pub fn unite(&mut self, other: &Bits) -> Result<bool, NoMemory>
        ensures members { OnOk result ((n : ℕ) → has self.new n ≡ (has self.old n || has other.now n)) }
        ensures grew { IfOk result (λ grew. IsTrue grew ↔ (length self.old < length self.new)) }
        ensures same { IfOk result (λ grew. grew ≡ false → self.new ≡ self.old) }
        ensures err { OnErr result (self.new ≡ self.old) }
        ensures set { IsSet self.new }
    {
        if blocks::covers(&self.blocks, &other.blocks) {
            return Ok(false);
        }
        blocks::put_all(&mut self.blocks, &other.blocks)?;
        Ok(true)
    }

    /// The members that another set has not.
    pub fn without(&self, alloc: Global, other: &Bits) -> Result<Bits, NoMemory>
        ensures members { IfOk result (λ rest. (n : ℕ) → has rest n ≡ (has self.now n && not (has other.now n))) }
        ensures set { IfOk result (λ rest. IsSet rest) }
    {
        let blocks = blocks::without(alloc, &self.blocks, &other.blocks)?;
        Ok(Bits { blocks })
    }

    /// The members, ascending.
    pub fn members(&self, alloc: Global) -> Result<Vec<u32>, NoMemory>
        ensures members { IfOk result (λ members. members.items ≡ self.now) }
        ensures set { IsSet self.now }
    {
        blocks::list(alloc, &self.blocks)
    }
}
