use core_ir::{CalleePart, ClassPart, Facts, View, WritePart};

/// What steps read beside the state, lent by a view or by facts. Lists ascend by their numbers.
#[derive(Clone, Copy)]
pub struct Known<'a> {
    /// By register, the region classes and functions to which it may point.
    pub sets: &'a [Vec<u32>],
    pub callees: &'a [CalleePart],
    /// By leaf class, the interval of its numbers.
    pub leaves: &'a [WritePart],
    pub classes: &'a [ClassPart],
    pub rising: bool,
}

impl<'a> Known<'a> {
    /// What a view has; `rising` says that the round is a rising one.
    pub fn of_view(view: &'a View, rising: bool) -> Known<'a> {
        Known {
            sets: &view.sets,
            callees: &view.callees,
            leaves: &view.leaves,
            classes: &view.classes,
            rising,
        }
    }

    /// What facts have.
    pub fn of_facts(facts: &'a Facts) -> Known<'a> {
        Known {
            sets: &facts.sets,
            callees: &facts.callees,
            leaves: &facts.leaves,
            classes: &facts.classes,
            rising: facts.rising,
        }
    }
}
