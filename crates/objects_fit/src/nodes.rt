use core_ir::{Leaf, Shape, ShapeForm};
use std::alloc::Global;
use sv_base::NoMemory;

/// Numbers from `first` up to `end`, the latter excluded.
#[derive(Clone, Copy)]
pub struct Span {
    pub first: u32,
    pub end: u32,
}

/// What a sub-object is. `rival` marks a union.
#[derive(Clone, Copy, PartialEq, Eq)]
pub enum NodeForm {
    Scalar(Leaf),
    /// The number of elements, and the size of one in bytes.
    Array { count: u64, stride: u64 },
    Members { rival: bool },
}

/// A sub-object with its indices erased: an array has one element. Nodes are numbered by object and depth first.
#[derive(Clone, Copy)]
pub struct Node {
    pub layout: u32,
    pub region: Option<u32>,
    pub form: NodeForm,
    /// In bytes, within what it is a member of.
    pub offset: u64,
    /// The node that it is a member or an element of.
    pub parent: Option<u32>,
    /// The leaf classes in it.
    pub leaves: Span,
    /// Its members or its element, as places in the list of `Nodes`.
    pub kids: Span,
}

/// The sub-objects of a program.
#[derive(Drop)]
pub struct Nodes {
    pub list: Vec<Node>,
    /// The nodes of members and elements, by the places that `Node::kids` has.
    pub kids: Vec<u32>,
    /// By region class, its node.
    pub regions: Vec<u32>,
    /// By leaf class, its node.
    pub leaves: Vec<u32>,
}

// What is left to be done.
#[derive(Clone, Copy)]
enum Todo<'a> {
    Open(Opening<'a>),
    Close(u32),
}

// A shape of which the node is still to be made; `kid` is its place in the list of members and elements.
#[derive(Clone, Copy)]
struct Opening<'a> {
    shape: &'a Shape,
    offset: u64,
    element: bool,
    parent: Option<u32>,
    kid: Option<u32>,
}

/// A length as a number.
pub(crate) fn number_of(length: usize) -> Result<u32, NoMemory> {
    match u32::try_from(length) {
        Ok(number) => Ok(number),
        Err(_) => Err(NoMemory),
    }
}

fn form_of(shape: &Shape) -> NodeForm {
    match &shape.form {
        ShapeForm::Scalar { leaf, .. } => NodeForm::Scalar(*leaf),
        ShapeForm::Array { count, stride, .. } => NodeForm::Array {
            count: *count,
            stride: *stride,
        },
        ShapeForm::Members { rival, .. } => NodeForm::Members { rival: *rival },
    }
}

// Whether a shape is a region: an element that is no array is none.
fn is_region(shape: &Shape, element: bool) -> bool {
    !element || matches!(&shape.form, ShapeForm::Array { .. })
}

impl Nodes {
    fn new(alloc: Global) -> Nodes {
        Nodes {
            list: Vec::new(alloc),
            kids: Vec::new(alloc),
            regions: Vec::new(alloc),
            leaves: Vec::new(alloc),
        }
    }

    /// The nodes of objects. None where a region class or a leaf class is not the next one, or a region stands where it is none.
    pub fn of(alloc: Global, objects: &[Shape]) -> Result<Option<Nodes>, NoMemory> {
        let mut nodes = Nodes::new(alloc);
        for object in objects {
            if !nodes.add(alloc, object)? {
                return Ok(None);
            }
        }
        Ok(Some(nodes))
    }

    pub fn node(&self, number: u32) -> Option<Node> {
        self.list.get(number as usize).copied()
    }

    /// The node of a member, or of the element of an array.
    pub fn kid(&self, place: u32) -> Option<u32> {
        self.kids.get(place as usize).copied()
    }

    // One more object. False where a class is not the next one.
    fn add(&mut self, alloc: Global, object: &Shape) -> Result<bool, NoMemory> {
        let mut todo = Vec::new(alloc);
        todo.push(Todo::Open(Opening {
            shape: object,
            offset: 0,
            element: false,
            parent: None,
            kid: None,
        }))?;
        for _ in 0..u64::MAX {
            match todo.pop() {
                None => return Ok(true),
                Some(Todo::Close(node)) => self.close(node)?,
                Some(Todo::Open(opening)) => {
                    if !self.open(&mut todo, opening)? {
                        return Ok(false);
                    }
                }
            }
        }
        Ok(false)
    }

    // The node of an opening; what is in it is still to be made.
    fn open<'a>(
        &mut self,
        todo: &mut Vec<Todo<'a>>,
        opening: Opening<'a>,
    ) -> Result<bool, NoMemory> {
        let number = number_of(self.list.len())?;
        let shape = opening.shape;
        if !self.has_next_region(shape, opening.element)? || !self.has_next_leaf(shape)? {
            return Ok(false);
        }
        self.push(opening)?;
        self.note_kid(opening.kid, number);
        todo.push(Todo::Close(number))?;
        match &shape.form {
            ShapeForm::Scalar { .. } => {}
            ShapeForm::Array { of, .. } => self.open_element(todo, of, number)?,
            ShapeForm::Members { list, .. } => self.open_members(todo, list, number)?,
        }
        Ok(true)
    }

    // Whether a shape has the next region class, or none where it is no region.
    fn has_next_region(&self, shape: &Shape, element: bool) -> Result<bool, NoMemory> {
        if !is_region(shape, element) {
            return Ok(shape.region.is_none());
        }
        let next = number_of(self.regions.len())?;
        Ok(shape.region == Some(next))
    }

    // Whether a scalar has the next leaf class.
    fn has_next_leaf(&self, shape: &Shape) -> Result<bool, NoMemory> {
        match &shape.form {
            ShapeForm::Scalar { class, .. } => Ok(*class == number_of(self.leaves.len())?),
            _ => Ok(true),
        }
    }

    fn push(&mut self, opening: Opening<'_>) -> Result<(), NoMemory> {
        let number = number_of(self.list.len())?;
        let first = number_of(self.leaves.len())?;
        let form = form_of(opening.shape);
        self.list.push(Node {
            layout: opening.shape.layout,
            region: opening.shape.region,
            form,
            offset: opening.offset,
            parent: opening.parent,
            leaves: Span { first, end: first },
            kids: Span { first: 0, end: 0 },
        })?;
        if opening.shape.region.is_some() {
            self.regions.push(number)?;
        }
        if let NodeForm::Scalar(_) = form {
            self.leaves.push(number)?;
        }
        Ok(())
    }

    fn note_kid(&mut self, place: Option<u32>, node: u32) {
        if let Some(place) = place {
            if let Some(kid) = self.kids.get_mut(place as usize) {
                *kid = node;
            }
        }
    }

    fn open_element<'a>(
        &mut self,
        todo: &mut Vec<Todo<'a>>,
        shape: &'a Shape,
        node: u32,
    ) -> Result<(), NoMemory> {
        let first = self.make_kids(node, 1)?;
        todo.push(Todo::Open(Opening {
            shape,
            offset: 0,
            element: true,
            parent: Some(node),
            kid: Some(first),
        }))?;
        Ok(())
    }

    fn open_members<'a>(
        &mut self,
        todo: &mut Vec<Todo<'a>>,
        members: &'a [(u64, Shape)],
        node: u32,
    ) -> Result<(), NoMemory> {
        let first = self.make_kids(node, members.len())?;
        let mut kid = first
            .checked_add(number_of(members.len())?)
            .ok_or(NoMemory)?;
        for member in members.iter().rev() {
            kid = kid.checked_sub(1).ok_or(NoMemory)?;
            todo.push(Todo::Open(Opening {
                shape: &member.1,
                offset: member.0,
                element: false,
                parent: Some(node),
                kid: Some(kid),
            }))?;
        }
        Ok(())
    }

    // Places for the members of a node. The answer is the first one.
    fn make_kids(&mut self, node: u32, count: usize) -> Result<u32, NoMemory> {
        let first = number_of(self.kids.len())?;
        for _ in 0..count {
            self.kids.push(node)?;
        }
        let end = number_of(self.kids.len())?;
        if let Some(node) = self.list.get_mut(node as usize) {
            node.kids = Span { first, end };
        }
        Ok(first)
    }

    // All that is in a node is there.
    fn close(&mut self, number: u32) -> Result<(), NoMemory> {
        let leaves = number_of(self.leaves.len())?;
        if let Some(node) = self.list.get_mut(number as usize) {
            node.leaves.end = leaves;
        }
        Ok(())
    }
}
