use core_ir::{CoreProgram, Function, FunctionNodes};

// Whether nodes are numbered from one on, as many as there are.
fn count_from(entries: &[u32], first: u64) -> bool {
    let mut next = first;
    for entry in entries {
        if u64::from(*entry) != next {
            return false;
        }
        next = next.saturating_add(1);
    }
    true
}

// Whether these are the nodes of a function of which the registers come after so many others.
fn are_nodes(before: u64, function: &Function, nodes: &FunctionNodes) -> bool {
    let result = match (function.result, nodes.result) {
        (None, None) => true,
        (Some(register), Some(node)) => {
            u64::from(node) == before.saturating_add(u64::from(register))
        }
        _ => false,
    };
    result
        && nodes.entries.len() == function.parameters as usize
        && count_from(&nodes.entries, before)
}

/// How many registers all functions have, if the table has their nodes, and their number.
pub(crate) fn register_count(core: &CoreProgram) -> Option<u64> {
    let mut before = 0u64;
    let mut all = core.classes.nodes.iter();
    for function in &core.functions {
        let nodes = all.next()?;
        if !are_nodes(before, function, nodes) {
            return None;
        }
        before = before.checked_add(function.registers.len() as u64)?;
    }
    if all.next().is_some() || u64::from(core.classes.registers) != before {
        return None;
    }
    Some(before)
}
