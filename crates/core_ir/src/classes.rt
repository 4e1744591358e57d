use crate::steps::Leaf;

/// The classes of regions and leaves, and what the analysis asks of them. A class is a region or a leaf with its indices erased.
#[derive(Drop)]
pub struct ClassTable {
    /// The number of registers of all functions.
    pub registers: u32,
    pub regions: Vec<RegionClass>,
    /// By leaf class, what it holds.
    pub leaves: Vec<Leaf>,
    /// By leaf class, the leaf classes of the same object that share its bytes as other members of a union.
    pub rivals: Vec<Vec<u32>>,
    /// By function, the nodes of its entry registers and of its result.
    pub nodes: Vec<FunctionNodes>,
}

#[derive(Drop)]
pub struct RegionClass {
    /// In bytes.
    pub length: u64,
    /// The leaf classes in it, in order.
    pub leaves: Vec<u32>,
    /// The sub-objects that a step may select in it.
    pub parts: Vec<PartClass>,
    /// The sub-objects of the types that a step may copy.
    pub layouts: Vec<LayoutPart>,
}

/// A sub-object by its number, and its region class.
#[derive(Clone, Copy, Debug, PartialEq, Eq)]
pub struct PartClass {
    pub part: u32,
    pub class: u32,
}

/// A sub-object of a type, with its leaf classes in order.
#[derive(Drop)]
pub struct LayoutPart {
    pub layout: u32,
    pub leaves: Vec<u32>,
}

/// Nodes of a function: those of its entry registers in order, and that of its result.
#[derive(Drop)]
pub struct FunctionNodes {
    pub entries: Vec<u32>,
    pub result: Option<u32>,
}
