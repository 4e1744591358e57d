use c_typed::TypeId;
use c_values::IntType;
use std::alloc::{AllocError, Global};
use std::collections::BTreeSet;

/// A `switch` (ISO/IEC 9899:1999, 6.8.4.2) with the labels that it has so far.
#[derive(Drop)]
pub struct Switch {
    /// The promoted type of the controlling expression.
    pub kind: IntType,
    pub values: BTreeSet<i128>,
    pub has_default: bool,
}

/// What stands around a statement in a function's body.
#[derive(Drop)]
pub struct Body {
    /// The function's result.
    pub gives: TypeId,
    /// The automatic objects of the open blocks.
    pub objects: Vec<u32>,
    /// The loops around.
    pub loops: u32,
    /// The `switch` statements around, the innermost last.
    pub switches: Vec<Switch>,
    /// The loops and `switch` statements around.
    pub breakable: u32,
}

impl Body {
    pub fn new(alloc: Global, gives: TypeId) -> Body {
        Body {
            gives,
            objects: Vec::new(alloc),
            loops: 0,
            switches: Vec::new(alloc),
            breakable: 0,
        }
    }

    pub fn begin_loop(&mut self) {
        self.loops = self.loops.saturating_add(1);
        self.breakable = self.breakable.saturating_add(1);
    }

    pub fn end_loop(&mut self) {
        self.loops = self.loops.saturating_sub(1);
        self.breakable = self.breakable.saturating_sub(1);
    }

    pub fn begin_switch(&mut self, alloc: Global, kind: IntType) -> Result<(), AllocError> {
        self.switches.push(Switch {
            kind,
            values: BTreeSet::new(alloc),
            has_default: false,
        })?;
        self.breakable = self.breakable.saturating_add(1);
        Ok(())
    }

    pub fn end_switch(&mut self) {
        self.switches.pop();
        self.breakable = self.breakable.saturating_sub(1);
    }

    /// Takes the objects that the innermost block declared, which began when there were so many.
    pub fn take_objects(&mut self, alloc: Global, before: usize) -> Result<Vec<u32>, AllocError> {
        let objects = match self.objects.as_slice().get(before..) {
            Some(objects) => Vec::from_slice(alloc, objects)?,
            None => Vec::new(alloc),
        };
        self.objects.truncate(before);
        Ok(objects)
    }
}
