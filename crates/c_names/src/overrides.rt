use crate::walk::{is_union, part_type};
use c_typed::{InitialPart, TypeId, TypeTable};
use std::alloc::{AllocError, Global};
use std::collections::HashMap;

// The sub-object at the path is given a value anew, when there were so many parts.
#[derive(Drop)]
struct Event {
    path: Vec<u32>,
    parts: usize,
}

/// The values that an initialiser gives sub-objects anew by designators (ISO/IEC 9899:1999, 6.7.8). What was given for such a
/// sub-object, or for another member of a union on the way, is given no longer.
#[derive(Drop)]
pub struct Overrides {
    events: Vec<Event>,
}

impl Overrides {
    pub fn new(alloc: Global) -> Overrides {
        Overrides {
            events: Vec::new(alloc),
        }
    }

    pub fn is_empty(&self) -> bool {
        self.events.is_empty()
    }

    /// The sub-object at the path is given a value behind so many parts.
    pub fn note(&mut self, path: Vec<u32>, parts: usize) -> Result<(), AllocError> {
        self.events.push(Event { path, parts })?;
        Ok(())
    }

    /// Which of the parts of an object of this type stay, by their places.
    pub fn staying(
        &self,
        alloc: Global,
        types: &TypeTable,
        of: TypeId,
        parts: &[InitialPart],
    ) -> Result<Vec<bool>, AllocError> {
        let mut later = Later::new(alloc)?;
        let mut stays = Vec::from_elem(alloc, true, parts.len())?;
        let mut rest = self.events.len();
        for back in 0..parts.len() {
            let place = parts.len() - 1 - back;
            rest = self.add_behind(place, rest, &mut later, types, of)?;
            if place < stays.len() {
                stays[place] = !later.overrides(&parts[place].path);
            }
        }
        Ok(stays)
    }

    // Adds the events among the first `rest` that come behind the part at a place, and answers how many are left.
    fn add_behind(
        &self,
        place: usize,
        rest: usize,
        later: &mut Later,
        types: &TypeTable,
        of: TypeId,
    ) -> Result<usize, AllocError> {
        let mut left = rest;
        for _turn in 0..rest {
            let Some(at) = left.checked_sub(1) else {
                return Ok(left);
            };
            let Some(event) = self.events.get(at) else {
                return Ok(at);
            };
            if event.parts <= place {
                return Ok(left);
            }
            later.add(&event.path, types, of)?;
            left = at;
        }
        Ok(left)
    }
}

#[derive(Clone, Copy, PartialEq, Eq)]
enum Chosen {
    None,
    One(u32),
    Many,
}

// A sub-object that later values are for, or lie in.
#[derive(Clone, Copy)]
struct Node {
    // Whether a later value is for the whole of it.
    whole: bool,
    // Which member later values choose, where it is a union.
    chosen: Chosen,
}

#[derive(Clone, Copy, PartialEq, Eq, Hash)]
struct Edge {
    node: u32,
    index: u32,
}

// The sub-objects that later values are for, as a tree of paths.
#[derive(Drop)]
struct Later {
    nodes: Vec<Node>,
    edges: HashMap<Edge, u32>,
}

impl Later {
    fn new(alloc: Global) -> Result<Later, AllocError> {
        let mut later = Later {
            nodes: Vec::new(alloc),
            edges: HashMap::new(alloc),
        };
        later.add_node()?;
        Ok(later)
    }

    fn add_node(&mut self) -> Result<u32, AllocError> {
        let Ok(number) = u32::try_from(self.nodes.len()) else {
            return Err(AllocError);
        };
        self.nodes.push(Node {
            whole: false,
            chosen: Chosen::None,
        })?;
        Ok(number)
    }

    fn node(&self, number: u32) -> Node {
        match self.nodes.get(number as usize) {
            Some(node) => *node,
            None => Node {
                whole: false,
                chosen: Chosen::None,
            },
        }
    }

    fn put(&mut self, number: u32, node: Node) {
        let at = number as usize;
        if at < self.nodes.len() {
            self.nodes[at] = node;
        }
    }

    fn next(&self, node: u32, index: u32) -> Option<u32> {
        match self.edges.get(&Edge { node, index }) {
            Some(next) => Some(*next),
            None => None,
        }
    }

    fn choose(&mut self, number: u32, index: u32) {
        let node = self.node(number);
        let chosen = match node.chosen {
            Chosen::None => Chosen::One(index),
            Chosen::One(other) if other == index => Chosen::One(index),
            _ => Chosen::Many,
        };
        self.put(
            number,
            Node {
                whole: node.whole,
                chosen,
            },
        );
    }

    // A later value is for the sub-object at the path.
    fn add(&mut self, path: &[u32], types: &TypeTable, of: TypeId) -> Result<(), AllocError> {
        let mut number = 0;
        let mut of = Some(of);
        for index in path {
            if let Some(inside) = of {
                if is_union(types, inside) {
                    self.choose(number, *index);
                }
                of = part_type(types, inside, u64::from(*index));
            }
            number = match self.next(number, *index) {
                Some(next) => next,
                None => self.branch(number, *index)?,
            };
        }
        let chosen = self.node(number).chosen;
        self.put(
            number,
            Node {
                whole: true,
                chosen,
            },
        );
        Ok(())
    }

    fn branch(&mut self, node: u32, index: u32) -> Result<u32, AllocError> {
        let next = self.add_node()?;
        self.edges.insert(Edge { node, index }, next)?;
        Ok(next)
    }

    // Whether a later value is for the sub-object at the path, for one that it lies in, or for another member of a union
    // that it lies in.
    fn overrides(&self, path: &[u32]) -> bool {
        let mut number = 0;
        for index in path {
            let node = self.node(number);
            if node.whole || is_another(node.chosen, *index) {
                return true;
            }
            match self.next(number, *index) {
                Some(next) => number = next,
                None => return false,
            }
        }
        self.node(number).whole
    }
}

fn is_another(chosen: Chosen, index: u32) -> bool {
    match chosen {
        Chosen::None => false,
        Chosen::One(other) => other != index,
        Chosen::Many => true,
    }
}
