use crate::artifacts::{Bounds, CallPart, WritePart};
use crate::classes::LayoutPart;
use crate::steps::Leaf;

/// All that the analysis of one function reads beside the function.
#[derive(Drop)]
pub struct View {
    pub context: Option<Vec<Bounds>>,
    /// By register, the region classes and functions to which it may point, ascending.
    pub sets: Vec<Vec<u32>>,
    pub clusters: Vec<Vec<u32>>,
    pub callees: Vec<CalleePart>,
    /// By leaf class, the interval of its numbers.
    pub leaves: Vec<WritePart>,
    pub classes: Vec<ClassPart>,
}

/// What a caller sees of a function. External functions have the numbers after those of the defined ones.
#[derive(Drop)]
pub struct CalleePart {
    pub callee: u32,
    pub kind: u32,
    pub external: bool,
    pub parameters: u32,
    /// By entry register, the least and the greatest number in its range; empty for an external function.
    pub ranges: Vec<(i128, i128)>,
    pub result_register: Option<u32>,
    pub clusters: Vec<Vec<u32>>,
    pub result: Option<Vec<Bounds>>,
}

/// What a function sees of a region class: its length in bytes, its leaf classes, and by sub-object of each type that the
/// function copies its leaf classes.
#[derive(Drop)]
pub struct ClassPart {
    pub class: u32,
    pub length: u64,
    pub leaves: Vec<LeafPart>,
    pub layouts: Vec<LayoutPart>,
}

/// A leaf class, what it holds, and its rivals with what they hold.
#[derive(Drop)]
pub struct LeafPart {
    pub class: u32,
    pub leaf: Leaf,
    pub rivals: Vec<(u32, Leaf)>,
}

/// What one step reads beside the state. `sets` has one set for each register, and `rising` says that the round is a rising one.
#[derive(Drop)]
pub struct Facts {
    pub sets: Vec<Vec<u32>>,
    pub callees: Vec<CalleePart>,
    pub leaves: Vec<WritePart>,
    pub classes: Vec<ClassPart>,
    pub rising: bool,
}

/// What steps contribute to callees and to leaf classes.
#[derive(Drop)]
pub struct Effects {
    pub calls: Vec<CallPart>,
    pub writes: Vec<WritePart>,
}
