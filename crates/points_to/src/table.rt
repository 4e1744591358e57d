//! What a class table says of the members of a set.
ghost use Rattle.std.specs.Prelude.{◌≡◌, option_copied, option_map, Some, None};
ghost use Rattle.points_to.specs.Rules.{region_of, leaves_in, parts_in, layouts_in, pointer_node, function_of, entry_node, result_node};

use core_ir::{ClassTable, FunctionNodes, LayoutPart, Leaf, PartClass, RegionClass};

// The least number of a function as a member; lesser members are region classes.
const FIRST_FUNCTION: u32 = 1 << 31;

fn region(classes: &ClassTable, member: u32) -> Option<&RegionClass>
    ensures { option_copied result ≡ region_of classes.now member }
{
    if member < FIRST_FUNCTION {
        return classes.regions.as_slice().get(member as usize);
    }
    None
}

/// The leaf classes in a region class.
pub(crate) fn leaves(classes: &ClassTable, member: u32) -> &[u32]
    ensures { result.now ≡ leaves_in classes.now member }
{
    match region(classes, member) {
        Some(region) => region.leaves.as_slice(),
        None => &[],
    }
}

/// The sub-objects in a region class.
pub(crate) fn parts(classes: &ClassTable, member: u32) -> &[PartClass]
    ensures { result.now ≡ parts_in classes.now member }
{
    match region(classes, member) {
        Some(region) => region.parts.as_slice(),
        None => &[],
    }
}

/// The sub-objects of copied types in a region class.
pub(crate) fn layouts(classes: &ClassTable, member: u32) -> &[LayoutPart]
    ensures { result.now ≡ layouts_in classes.now member }
{
    match region(classes, member) {
        Some(region) => region.layouts.as_slice(),
        None => &[],
    }
}

/// The node of a leaf class, if it holds a pointer.
pub(crate) fn pointer(classes: &ClassTable, leaf: u32) -> Option<usize>
    ensures { result ≡ pointer_node classes.now leaf }
{
    match classes.leaves.as_slice().get(leaf as usize) {
        Some(Leaf::Pointer) => Some(classes.registers as usize + leaf as usize),
        Some(Leaf::Int(_)) | None => None,
    }
}

fn function(classes: &ClassTable, member: u32) -> Option<&FunctionNodes>
    ensures { option_copied result ≡ function_of classes.now member }
{
    if member < FIRST_FUNCTION {
        return None;
    }
    classes
        .nodes
        .as_slice()
        .get((member - FIRST_FUNCTION) as usize)
}

/// The node of a function's entry register.
pub(crate) fn entry(classes: &ClassTable, member: u32, index: u32) -> Option<usize>
    ensures { result ≡ entry_node classes.now member index }
{
    match function(classes, member) {
        Some(function) => match function.entries.as_slice().get(index as usize) {
            Some(node) => Some(*node as usize),
            None => None,
        },
        None => None,
    }
}

/// The node of a function's result.
pub(crate) fn outcome(classes: &ClassTable, member: u32) -> Option<usize>
    ensures { result ≡ result_node classes.now member }
{
    match function(classes, member) {
        Some(function) => match function.result {
            Some(node) => Some(node as usize),
            None => None,
        },
        None => None,
    }
}
