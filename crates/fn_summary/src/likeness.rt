// Whether artifacts say the same.

use core_ir::{Artifact, Bounds, CallPart};

fn is_same(a: &Bounds, b: &Bounds) -> bool {
    a.size == b.size && a.entries.as_slice() == b.entries.as_slice()
}

fn are_same(a: &[Bounds], b: &[Bounds]) -> bool {
    if a.len() != b.len() {
        return false;
    }
    for k in 0..a.len() {
        if !is_same(&a[k], &b[k]) {
            return false;
        }
    }
    true
}

fn are_same_states(a: &Option<Vec<Bounds>>, b: &Option<Vec<Bounds>>) -> bool {
    match (a, b) {
        (None, None) => true,
        (Some(a), Some(b)) => are_same(a, b),
        _ => false,
    }
}

fn are_same_calls(a: &[CallPart], b: &[CallPart]) -> bool {
    if a.len() != b.len() {
        return false;
    }
    for k in 0..a.len() {
        if a[k].callee != b[k].callee || !are_same(&a[k].entry, &b[k].entry) {
            return false;
        }
    }
    true
}

/// Whether two artifacts of a function say the same, what they say of the round before aside.
pub fn have_same_parts(a: &Artifact, b: &Artifact) -> bool {
    are_same_states(&a.context, &b.context)
        && are_same_states(&a.result, &b.result)
        && are_same_calls(&a.calls, &b.calls)
        && a.writes.as_slice() == b.writes.as_slice()
}

/// Whether an artifact says that the function is never called and does nothing, as before the first round.
pub(crate) fn is_nothing(a: &Artifact) -> bool {
    a.context.is_none() && a.result.is_none() && a.calls.is_empty() && a.writes.is_empty()
}
