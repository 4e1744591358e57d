use crate::steps::Leaf;

/// The tree of an object, a member or an element. Types are numbered up to likeness, and `layout` is that number. `region` is
/// the class of the region; an element that is no array is no region.
#[cycle(shapes)]
#[derive(Drop)]
pub struct Shape {
    pub layout: u32,
    pub region: Option<u32>,
    pub form: ShapeForm,
}

#[cycle(shapes)]
#[derive(Drop)]
pub enum ShapeForm {
    Scalar {
        leaf: Leaf,
        class: u32,
    },
    /// `count` elements, each `stride` bytes after the one before.
    Array {
        count: u64,
        stride: u64,
        of: Box<Shape>,
    },
    /// Members with their offsets in bytes. `rival` marks a union.
    Members {
        rival: bool,
        list: Vec<(u64, Shape)>,
    },
}

/// A sub-object by its type, or, where `member` is there, that member of it.
#[derive(Clone, Copy, Debug, PartialEq, Eq)]
pub struct Part {
    pub layout: u32,
    pub member: Option<u32>,
}
