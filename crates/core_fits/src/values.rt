use crate::places::Objects;
use c_values::{greatest, least};
use core_ir::{CoreProgram, Leaf, StaticValue};

/// The numbers from the first to the second.
pub(crate) type Range = (i128, i128);

// Offsets of pointers are within this either way.
const OFFSETS: Range = (
    -1_208_925_819_614_629_174_706_176,
    1_208_925_819_614_629_174_706_176,
);
// Function f stands as this number and f among what pointers point to.
const FIRST_FUNCTION: u32 = 0x8000_0000;

/// A value that is listed: its number, and the region class or function that it points to.
#[derive(Clone, Copy)]
pub(crate) struct Given {
    pub(crate) number: i128,
    pub(crate) target: Option<u32>,
}

fn leaf_range(leaf: Leaf) -> Range {
    match leaf {
        Leaf::Int(kind) => (least(kind), greatest(kind)),
        Leaf::Pointer => OFFSETS,
    }
}

fn has(range: Range, number: i128) -> bool {
    range.0 <= number && number <= range.1
}

/// What an indeterminate leaf counts as.
pub(crate) fn any_number(leaf: Leaf) -> Range {
    match leaf {
        Leaf::Int(_) => leaf_range(leaf),
        Leaf::Pointer => (0, 0),
    }
}

// An integer on a pointer leaf is a pointer to nowhere.
fn given_number(leaf: Leaf, number: i128) -> Option<Given> {
    if !has(leaf_range(leaf), number) {
        return None;
    }
    let number = match leaf {
        Leaf::Int(_) => number,
        Leaf::Pointer => 0,
    };
    Some(Given {
        number,
        target: None,
    })
}

// A pointer leads to a region of a static object.
fn given_place(objects: Objects<'_>, object: u32, path: &[u32], offset: i128) -> Option<Given> {
    let number = objects.static_node(object, path)?;
    let region = objects.nodes.node(number)?.region?;
    if !has(OFFSETS, offset) {
        return None;
    }
    Some(Given {
        number: offset,
        target: Some(region),
    })
}

fn given_function(core: &CoreProgram, function: u32) -> Option<Given> {
    let defined = core.functions.len() as u64;
    let count = defined.saturating_add(core.externals.len() as u64);
    if u64::from(function) >= count {
        return None;
    }
    Some(Given {
        number: 0,
        target: Some(FIRST_FUNCTION.checked_add(function)?),
    })
}

/// What a listed value gives a leaf. None where it does not fit the leaf.
pub(crate) fn value_given(
    core: &CoreProgram,
    objects: Objects<'_>,
    leaf: Leaf,
    value: &StaticValue,
) -> Option<Given> {
    match value {
        StaticValue::Int(number) => given_number(leaf, *number),
        StaticValue::Place {
            object,
            path,
            offset,
        } => {
            if leaf != Leaf::Pointer {
                return None;
            }
            given_place(objects, *object, path, *offset)
        }
        StaticValue::Function(function) => {
            if leaf != Leaf::Pointer {
                return None;
            }
            given_function(core, *function)
        }
    }
}
