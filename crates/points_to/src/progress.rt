//! What a solver has found of the least family so far.
ghost use Rattle.std.specs.Prelude.{◌≡◌, ℕ, ◌<◌, ◌==◌, true, false, [], ◌∷◌, ◌++◌, length, OnOk, IfOk};
ghost use Rattle.points_to.specs.Sets.{has};
ghost use Rattle.points_to.specs.Families.{Has};
ghost use Rattle.points_to.specs.computed.Progress.{done_of, edges_of, AreEmpty, IsStart, Stands, IsMet, IsNext};

use crate::bits::Bits;
use std::alloc::Global;
use std::collections::VecDeque;
use std::mem;
use sv_base::NoMemory;

/// Members and edges that were found.
#[derive(Drop)]
pub(crate) struct Progress {
    /// By node, the members that were handed on along its edges.
    pub(crate) done: Vec<Bits>,
    /// By node, the members that are still to be handed on.
    pub(crate) todo: Vec<Bits>,
    /// By node, the nodes that take over its members.
    pub(crate) edges: Vec<Bits>,
    /// The nodes with members that are still to be handed on.
    pub(crate) queue: VecDeque<u32>,
}

fn empty_sets(alloc: Global, count: u32) -> Result<Vec<Bits>, NoMemory>
    ensures { IfOk result (λ sets. AreEmpty count sets.items) }
{
    let mut sets = Vec::new(alloc);
    for _ in 0..count {
        sets.push(Bits::new(alloc))?;
    }
    Ok(sets)
}

impl Progress {
    /// Nothing is found of so many nodes.
    pub(crate) fn new(alloc: Global, nodes: u32) -> Result<Progress, NoMemory>
        ensures { IfOk result (λ p. IsStart nodes p) }
    {
        Ok(Progress {
            done: empty_sets(alloc, nodes)?,
            todo: empty_sets(alloc, nodes)?,
            edges: empty_sets(alloc, nodes)?,
            queue: VecDeque::new(alloc),
        })
    }

    // Adds members that were not handed on.
    fn put(&mut self, node: usize, news: &Bits) -> Result<(), NoMemory>
        requires stands { Stands self.old }
        requires node { node < length self.old.done.items }
        requires fresh { (member : ℕ) → has news.now member ≡ true → done_of self.old node member ≡ false }
        ensures met { OnOk result (IsMet (λ flows gets. (member : ℕ) → has news.now member ≡ true → gets node member) self.old self.new) }
        ensures edges { OnOk result (self.new.edges.items ≡ self.old.edges.items) }
    {
        let first = self.todo[node].is_empty();
        if !self.todo[node].unite(news)? {
            return Ok(());
        }
        if !first {
            return Ok(());
        }
        self.queue.push_back(node as u32)?;
        Ok(())
    }

    /// Adds the members of a set.
    pub(crate) fn add_all(&mut self, node: usize, members: &Bits) -> Result<(), NoMemory>
        requires stands { Stands self.old }
        requires node { node < length self.old.done.items }
        ensures met { OnOk result (IsMet (λ flows gets. (member : ℕ) → has members.now member ≡ true → gets node member) self.old self.new) }
        ensures edges { OnOk result (self.new.edges.items ≡ self.old.edges.items) }
    {
        let alloc = *self.done.allocator();
        let news = members.without(alloc, &self.done[node])?;
        self.put(node, &news)
    }

    /// Adds a member.
    pub(crate) fn add(&mut self, node: usize, member: u32) -> Result<(), NoMemory>
        requires stands { Stands self.old }
        requires node { node < length self.old.done.items }
        ensures { OnOk result (IsMet (λ flows gets. gets node member) self.old self.new) }
    {
        if self.done[node].contains(member) {
            return Ok(());
        }
        let mut one = Bits::new(*self.done.allocator());
        one.add(member)?;
        self.put(node, &one)
    }

    /// Adds an edge, along which the members that the one node has handed on go to the other.
    pub(crate) fn link(&mut self, from: usize, to: usize) -> Result<(), NoMemory>
        requires stands { Stands self.old }
        requires from { from < length self.old.done.items }
        requires to { to < length self.old.done.items }
        ensures { OnOk result (IsMet (λ flows gets. flows from to) self.old self.new) }
    {
        if !self.edges[from].add(to as u32)? {
            return Ok(());
        }
        let alloc = *self.done.allocator();
        let news = self.done[from].without(alloc, &self.done[to])?;
        self.put(to, &news)
    }

    /// Hands members of a node on along its edges.
    pub(crate) fn hand_on(&mut self, node: usize, members: &Bits) -> Result<(), NoMemory>
        requires stands { Stands self.old }
        requires node { node < length self.old.done.items }
        ensures met { OnOk result (IsMet (λ flows gets. (to : ℕ) → Has (edges_of self.old) node to → (member : ℕ) → has members.now member ≡ true → gets to member) self.old self.new) }
        ensures edges { OnOk result (self.new.edges.items ≡ self.old.edges.items) }
    {
        let alloc = *self.done.allocator();
        let nexts = self.edges[node].members(alloc)?;
        for to in &nexts {
            self.add_all(*to as usize, members)?;
        }
        Ok(())
    }

    /// Takes the members of the first waiting node, which count as handed on.
    pub(crate) fn next(&mut self) -> Result<Option<(usize, Bits)>, NoMemory>
        requires { Stands self.old }
        ensures { IfOk result (λ next. IsNext next self.old self.new) }
    {
        match self.queue.pop_front() {
            Some(node) => {
                let at = node as usize;
                let alloc = *self.done.allocator();
                let delta = mem::replace(&mut self.todo[at], Bits::new(alloc));
                self.done[at].unite(&delta)?;
                return Ok(Some((at, delta)));
            }
            None => return Ok(None),
        }
    }
}
