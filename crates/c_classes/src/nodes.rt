use crate::numbers::FirstUse;
use c_tree::RecordKind;
use c_typed::{MemberType, TypeId, TypeKind, TypeTable, TypedObject};
use core_ir::Leaf;
use std::alloc::Global;
use sv_base::{FrontFault, NoMemory, SourceFault, faults, limits};

/// Numbers from `first` up to `end`, the latter excluded.
#[derive(Clone, Copy, Debug, PartialEq, Eq)]
pub struct Span {
    pub first: u32,
    pub end: u32,
}

/// A sub-object of an object with its indices erased: an array has one element. Nodes are numbered by object and depth first.
#[derive(Clone, Copy, Debug, PartialEq, Eq)]
pub struct Node {
    pub of: TypeId,
    pub layout: u32,
    /// Its region class. An element that is no array is no region.
    pub region: Option<u32>,
    pub form: NodeForm,
    /// In bytes, within what it is a member of.
    pub offset: u64,
    /// The node that it is a member or an element of.
    pub parent: Option<u32>,
    /// The number behind those of the nodes in it.
    pub end: u32,
    /// The leaf classes in it.
    pub leaves: Span,
    /// Its members or its element, as places in the list of `Objects`.
    pub kids: Span,
}

#[derive(Clone, Copy, Debug, PartialEq, Eq)]
pub enum NodeForm {
    Scalar(Leaf),
    /// The number of elements, and the size of one in bytes.
    Array { count: u64, stride: u64 },
    /// `rival` marks a union.
    Members { rival: bool },
}

/// The objects of a program.
#[derive(Drop)]
pub struct Objects {
    pub nodes: Vec<Node>,
    /// The nodes of members and elements, by the places that `Node::kids` has.
    pub kids: Vec<u32>,
    /// By object.
    pub roots: Vec<u32>,
    /// By region class, its node.
    pub regions: Vec<u32>,
    /// By leaf class, what it holds.
    pub leaves: Vec<Leaf>,
}

// What is left to be done of an object.
#[derive(Clone, Copy)]
enum Todo {
    Open(Opening),
    Close(u32),
}

// A node that is still to be made; `kid` is its place in the list of its parent's nodes.
#[derive(Clone, Copy)]
struct Opening {
    of: TypeId,
    offset: u64,
    element: bool,
    parent: Option<u32>,
    kid: Option<u32>,
}

fn number_of(length: usize) -> Result<u32, NoMemory> {
    match u32::try_from(length) {
        Ok(number) => Ok(number),
        Err(_) => Err(NoMemory),
    }
}

fn form_of(types: &TypeTable, of: TypeId) -> NodeForm {
    match types.kind(of) {
        TypeKind::Int(kind) => NodeForm::Scalar(Leaf::Int(kind)),
        TypeKind::Array(element, count) => NodeForm::Array {
            count: count.unwrap_or(0),
            stride: types.extent(element).size,
        },
        TypeKind::Record(number) => NodeForm::Members {
            rival: is_union(types, number),
        },
        _ => NodeForm::Scalar(Leaf::Pointer),
    }
}

fn is_union(types: &TypeTable, number: u32) -> bool {
    match types.record(number) {
        Some(record) => record.kind == RecordKind::Union,
        None => false,
    }
}

fn members_of(types: &TypeTable, number: u32) -> &[MemberType] {
    match types.record(number) {
        None => &[],
        Some(record) => match &record.members {
            None => &[],
            Some(members) => members.as_slice(),
        },
    }
}

impl Objects {
    pub fn new(alloc: Global) -> Objects {
        Objects {
            nodes: Vec::new(alloc),
            kids: Vec::new(alloc),
            roots: Vec::new(alloc),
            regions: Vec::new(alloc),
            leaves: Vec::new(alloc),
        }
    }

    pub fn node(&self, number: u32) -> Option<&Node> {
        self.nodes.get(number as usize)
    }

    /// The node of an object.
    pub fn root(&self, object: u32) -> Option<u32> {
        self.roots.get(object as usize).copied()
    }

    /// The region class of an object's whole region; 0 where there is no such object.
    pub fn whole_region(&self, object: u32) -> u32 {
        match self.root(object) {
            None => 0,
            Some(root) => self.region(root).unwrap_or(0),
        }
    }

    /// The region class of a node.
    pub fn region(&self, node: u32) -> Option<u32> {
        match self.node(node) {
            None => None,
            Some(node) => node.region,
        }
    }

    /// The node of a member, or of the element of an array.
    pub fn kid(&self, node: &Node, position: u32) -> Option<u32> {
        let place = match node.form {
            NodeForm::Scalar(_) => return None,
            NodeForm::Array { .. } => node.kids.first,
            NodeForm::Members { .. } => node.kids.first.checked_add(position)?,
        };
        if place >= node.kids.end {
            return None;
        }
        self.kids.get(place as usize).copied()
    }

    /// Adds an object. A limit stands at its name or text.
    pub fn add(
        &mut self,
        alloc: Global,
        types: &TypeTable,
        layouts: &mut FirstUse,
        object: &TypedObject,
    ) -> Result<(), FrontFault> {
        let root = number_of(self.nodes.len())?;
        let mut todo = Vec::new(alloc);
        todo.push(Todo::Open(Opening {
            of: object.of,
            offset: 0,
            element: false,
            parent: None,
            kid: None,
        }))?;
        for _ in 0..u64::MAX {
            match todo.pop() {
                None => break,
                Some(Todo::Close(node)) => self.close(node)?,
                Some(Todo::Open(opening)) => {
                    self.open(types, layouts, &mut todo, opening)?;
                    if self.has_too_many() {
                        return Err(FrontFault::Fault(SourceFault {
                            kind: faults::TOO_MANY_CLASSES,
                            place: object.place,
                        }));
                    }
                }
            }
        }
        self.roots.push(root)?;
        Ok(())
    }

    fn has_too_many(&self) -> bool {
        let most = limits::CLASSES as usize;
        self.regions.len() > most || self.leaves.len() > most - self.regions.len()
    }

    // The node of an opening; what is in it is still to be made.
    fn open(
        &mut self,
        types: &TypeTable,
        layouts: &mut FirstUse,
        todo: &mut Vec<Todo>,
        opening: Opening,
    ) -> Result<(), NoMemory> {
        let number = number_of(self.nodes.len())?;
        let form = form_of(types, opening.of);
        let node = Node {
            of: opening.of,
            layout: layouts.number(types.class(opening.of))?,
            region: self.next_region(number, form, opening.element)?,
            form,
            offset: opening.offset,
            parent: opening.parent,
            end: number,
            leaves: self.next_leaves(form)?,
            kids: Span { first: 0, end: 0 },
        };
        self.nodes.push(node)?;
        self.note_kid(opening.kid, number);
        todo.push(Todo::Close(number))?;
        self.open_inner(types, todo, opening.of, number)
    }

    // The region class of a node that is one.
    fn next_region(
        &mut self,
        node: u32,
        form: NodeForm,
        element: bool,
    ) -> Result<Option<u32>, NoMemory> {
        if element && !matches!(form, NodeForm::Array { .. }) {
            return Ok(None);
        }
        let region = number_of(self.regions.len())?;
        self.regions.push(node)?;
        Ok(Some(region))
    }

    // The leaf class of a scalar; of another form the place where its leaf classes begin.
    fn next_leaves(&mut self, form: NodeForm) -> Result<Span, NoMemory> {
        let first = number_of(self.leaves.len())?;
        if let NodeForm::Scalar(leaf) = form {
            self.leaves.push(leaf)?;
        }
        let end = number_of(self.leaves.len())?;
        Ok(Span { first, end })
    }

    fn note_kid(&mut self, place: Option<u32>, node: u32) {
        if let Some(place) = place {
            if let Some(kid) = self.kids.get_mut(place as usize) {
                *kid = node;
            }
        }
    }

    // What is in a node, the first of it to be made next.
    fn open_inner(
        &mut self,
        types: &TypeTable,
        todo: &mut Vec<Todo>,
        of: TypeId,
        node: u32,
    ) -> Result<(), NoMemory> {
        match types.kind(of) {
            TypeKind::Array(element, _) => self.open_element(todo, element, node),
            TypeKind::Record(number) => self.open_members(todo, members_of(types, number), node),
            _ => Ok(()),
        }
    }

    fn open_element(
        &mut self,
        todo: &mut Vec<Todo>,
        of: TypeId,
        node: u32,
    ) -> Result<(), NoMemory> {
        let first = self.make_kids(node, 1)?;
        todo.push(Todo::Open(Opening {
            of,
            offset: 0,
            element: true,
            parent: Some(node),
            kid: Some(first),
        }))?;
        Ok(())
    }

    fn open_members(
        &mut self,
        todo: &mut Vec<Todo>,
        members: &[MemberType],
        node: u32,
    ) -> Result<(), NoMemory> {
        let first = self.make_kids(node, members.len())?;
        let mut kid = first
            .checked_add(number_of(members.len())?)
            .ok_or(NoMemory)?;
        for member in members.iter().rev() {
            kid = kid.checked_sub(1).ok_or(NoMemory)?;
            todo.push(Todo::Open(Opening {
                of: member.of,
                offset: member.offset,
                element: false,
                parent: Some(node),
                kid: Some(kid),
            }))?;
        }
        Ok(())
    }

    // Places for the members of a node. The answer is the first one.
    fn make_kids(&mut self, node: u32, count: usize) -> Result<u32, NoMemory> {
        let first = number_of(self.kids.len())?;
        for _ in 0..count {
            self.kids.push(node)?;
        }
        let end = number_of(self.kids.len())?;
        if let Some(node) = self.nodes.get_mut(node as usize) {
            node.kids = Span { first, end };
        }
        Ok(first)
    }

    // All that is in a node is there.
    fn close(&mut self, number: u32) -> Result<(), NoMemory> {
        let end = number_of(self.nodes.len())?;
        let leaves = number_of(self.leaves.len())?;
        if let Some(node) = self.nodes.get_mut(number as usize) {
            node.end = end;
            node.leaves.end = leaves;
        }
        Ok(())
    }
}
