ghost use Rattle.std.specs.Prelude.{◌≡◌, [], ◌∷◌, ◌++◌, OnErr, OnOk};

use crate::shapes::{Shape, ShapeForm};
use std::alloc::{AllocFailed, Global};
use std::mem;
use sv_base::NoMemory;

/// Trees of objects that are being put together. Structures inside structures may stand as deep as a source is long, so trees are
/// let go of by a loop, as lists of steps are.
pub struct ShapeList {
    pub list: Vec<Shape>,
}

// The first of the members, if there is one. What is left are then the other ones, and in the room of the first one what was left
// before.
fn enter(left: &mut Vec<(u64, Shape)>, list: Vec<(u64, Shape)>) -> Option<Shape> {
    if list.is_empty() {
        return None;
    }
    let outer = mem::replace(left, list);
    if outer.is_empty() {
        let (_, last) = left.pop()?;
        return Some(last);
    }
    let (_, first) = left.first_mut()?;
    let form = ShapeForm::Members {
        rival: false,
        list: outer,
    };
    let waiting = Shape {
        layout: 0,
        region: None,
        form,
    };
    Some(mem::replace(first, waiting))
}

// The next tree once this node is gone: one inside it, or one of those that are left.
fn after(left: &mut Vec<(u64, Shape)>, shape: Shape) -> Option<Shape> {
    let Shape { form, .. } = shape;
    let inner = match form {
        ShapeForm::Scalar { .. } => None,
        ShapeForm::Array { of, .. } => Some(Box::into_inner(of)),
        ShapeForm::Members { list, .. } => enter(left, list),
    };
    match inner {
        Some(next) => Some(next),
        None => match left.pop() {
            None => None,
            Some((_, next)) => Some(next),
        },
    }
}

// Lets go of a tree and then of those that are left, one after another.
fn let_go_from(left: Vec<(u64, Shape)>, next: Option<Shape>) {
    let mut left = left;
    let mut next = next;
    for _ in 0..u64::MAX {
        match next {
            None => return,
            Some(shape) => next = after(&mut left, shape),
        }
    }
}

// Lets go of a tree.
fn let_go_of(alloc: Global, shape: Shape) {
    let_go_from(Vec::new(alloc), Some(shape));
}

// Lets go of trees.
pub(crate) fn let_go(shapes: Vec<Shape>) {
    let alloc = *shapes.allocator();
    for shape in shapes {
        let_go_of(alloc, shape);
    }
}

// Members that are being put together.
struct MemberList {
    list: Vec<(u64, Shape)>,
}

impl Drop for MemberList {
    fn drop(self) {
        let MemberList { list } = self;
        let mut left = list;
        match left.pop() {
            None => {}
            Some((_, shape)) => let_go_from(left, Some(shape)),
        }
    }
}

impl MemberList {
    fn push(&mut self, offset: u64, shape: Shape) -> Result<(), NoMemory> {
        let alloc = *self.list.allocator();
        match self.list.push((offset, shape)) {
            Ok(()) => Ok(()),
            Err(AllocFailed { value }) => {
                let (_, shape) = value;
                let_go_of(alloc, shape);
                Err(NoMemory)
            }
        }
    }

    fn into_form(self, rival: bool) -> ShapeForm {
        let MemberList { list } = self;
        ShapeForm::Members { rival, list }
    }
}

// A tree in a box, of which there is one for each array.
fn boxed(alloc: Global, shape: Shape) -> Result<Box<Shape>, NoMemory> {
    match Box::new(alloc, shape) {
        Ok(of) => Ok(of),
        Err(AllocFailed { value }) => {
            let_go_of(alloc, value);
            Err(NoMemory)
        }
    }
}

impl Drop for ShapeList {
    fn drop(self) {
        let ShapeList { list } = self;
        let_go(list);
    }
}

impl ShapeList {
    pub fn new(alloc: Global) -> ShapeList
        ensures { result.list.items ≡ [] }
    {
        ShapeList {
            list: Vec::new(alloc),
        }
    }

    /// One more tree at the end.
    pub fn push(&mut self, shape: Shape) -> Result<(), NoMemory>
        ensures one_more { OnOk result (self.new.list.items ≡ self.old.list.items ++ shape ∷ []) }
        ensures refused { OnErr result (self.new.list.items ≡ self.old.list.items) }
    {
        let alloc = *self.list.allocator();
        match self.list.push(shape) {
            Ok(()) => Ok(()),
            Err(AllocFailed { value }) => {
                let_go_of(alloc, value);
                Err(NoMemory)
            }
        }
    }

    /// The last tree becomes the element of an array. Without a tree nothing changes.
    pub fn push_array(
        &mut self,
        layout: u32,
        region: Option<u32>,
        count: u64,
        stride: u64,
    ) -> Result<(), NoMemory> {
        let alloc = *self.list.allocator();
        let Some(element) = self.list.pop() else {
            return Ok(());
        };
        let of = boxed(alloc, element)?;
        self.push(Shape {
            layout,
            region,
            form: ShapeForm::Array { count, stride, of },
        })
    }

    /// As many trees as there are offsets become the members of one, the last tree the first member. Where there are fewer trees it
    /// has fewer members.
    pub fn push_members(
        &mut self,
        layout: u32,
        region: Option<u32>,
        rival: bool,
        offsets: &[u64],
    ) -> Result<(), NoMemory> {
        let mut members = MemberList {
            list: Vec::new(*self.list.allocator()),
        };
        for offset in offsets {
            let Some(shape) = self.list.pop() else {
                break;
            };
            members.push(*offset, shape)?;
        }
        self.push(Shape {
            layout,
            region,
            form: members.into_form(rival),
        })
    }

    /// The trees themselves, for a program.
    pub fn into_objects(self) -> Vec<Shape>
        ensures { result.items ≡ self.list.items }
    {
        let ShapeList { list } = self;
        list
    }
}
