use crate::classes::ClassTable;
use crate::shapes::{Part, Shape};
use crate::statics::{StaticLeaf, StaticUnion};
use crate::steps::{Leaf, Step};
use crate::{bodies, trees};
use sv_base::{FuncId, Place};

/// A program of the core.
pub struct CoreProgram {
    pub functions: Vec<Function>,
    /// The functions that the environment calls.
    pub entries: Vec<FuncId>,
    /// The statics, and then the objects of each function in order.
    pub objects: Vec<Shape>,
    /// The sub-objects that a step may select, by number.
    pub parts: Vec<Part>,
    pub classes: ClassTable,
    /// The initial values of leaves of static objects that are neither zero nor null.
    pub statics: Vec<StaticLeaf>,
    /// The static unions that begin with another member than the first.
    pub unions: Vec<StaticUnion>,
    /// By leaf class, the least and the greatest number that a static initialiser gives it.
    pub leaf_starts: Vec<Option<(i128, i128)>>,
    /// By leaf class, the region classes and functions to which a static initialiser lets it point.
    pub pointer_starts: Vec<Vec<u32>>,
    pub sites: Vec<CoreSite>,
    /// The external functions that the program names, in the order of their first uses.
    pub externals: Vec<ExternalName>,
}

/// A defined function. Registers 0 to `parameters - 1` are its entry registers: register i holds argument i. No step puts
/// anything into them.
pub struct Function {
    pub name: Vec<u8>,
    /// The number of its type. Function types are numbered up to likeness.
    pub kind: u32,
    pub parameters: u32,
    pub registers: Vec<Register>,
    /// The register of the result; none for a function that returns nothing.
    pub result: Option<u32>,
    pub body: Vec<Step>,
}

impl Drop for CoreProgram {
    fn drop(self) {
        let CoreProgram {
            functions: _,
            entries: _,
            objects,
            parts: _,
            classes: _,
            statics: _,
            unions: _,
            leaf_starts: _,
            pointer_starts: _,
            sites: _,
            externals: _,
        } = self;
        trees::let_go(objects);
    }
}

impl Drop for Function {
    fn drop(self) {
        let Function {
            name: _,
            kind: _,
            parameters: _,
            registers: _,
            result: _,
            body,
        } = self;
        bodies::let_go(body);
    }
}

#[derive(Clone, Copy, Debug, PartialEq, Eq)]
pub struct Register {
    pub leaf: Leaf,
    /// Whether it stands for a variable of the source.
    pub named: bool,
}

#[derive(Clone, Copy, Debug, PartialEq, Eq)]
pub struct CoreSite {
    pub place: Place,
    pub function: FuncId,
}

#[derive(Drop)]
pub struct ExternalName {
    pub name: Vec<u8>,
    pub kind: u32,
}
