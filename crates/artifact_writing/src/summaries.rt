ghost use Rattle.std.specs.Prelude.{◌≡◌, map, nat_lt};
ghost use Rattle.std.specs.List.{list_all};
ghost use Rattle.core_ir.specs.Plain.{all_bounds, artifact_of, bounds_of, call_of, some_bounds};
ghost use Rattle.artifact_codec.specs.Demands.{ascend, is_after, is_bound, is_entry, is_matrix, are_matrices, is_state, is_call, are_calls, is_write, are_writes, is_summary};
ghost use Rattle.artifact_writing.specs.Orders.{is_callee_before, is_class_before};

use crate::demands::is_above;
use core_ir::{Artifact, Bounds, CallPart, WritePart};

const MOST: i128 = 2417851639229258349412352;

fn is_bound(z: i128) -> bool
    ensures { result ≡ is_bound z }
{
    if z < -MOST {
        return false;
    }
    z <= MOST
}

fn is_entry(entry: Option<i128>) -> bool
    ensures { result ≡ is_entry entry }
{
    match entry {
        None => true,
        Some(bound) => is_bound(bound),
    }
}

fn are_entries(entries: &[Option<i128>]) -> bool
    ensures { result ≡ list_all is_entry entries.now }
{
    entries.iter().all(|entry| is_entry(*entry))
}

fn is_matrix(b: &Bounds) -> bool
    ensures { result ≡ is_matrix (bounds_of b.now) }
{
    1 <= b.size
        && b.size <= 16
        && b.entries.len() == b.size as usize * (b.size as usize + 1)
        && are_entries(&b.entries)
}

fn are_all_matrices(list: &[Bounds]) -> bool
    ensures { result ≡ list_all is_matrix (all_bounds list.now) }
{
    for b in list {
        if !is_matrix(b) {
            return false;
        }
    }
    true
}

fn are_matrices(list: &[Bounds]) -> bool
    ensures { result ≡ are_matrices (all_bounds list.now) }
{
    list.len() < 4294967296 && are_all_matrices(list)
}

fn is_state(state: &Option<Vec<Bounds>>) -> bool
    ensures { result ≡ is_state (some_bounds state.now) }
{
    match state {
        None => true,
        Some(list) => are_matrices(list),
    }
}

fn is_call(c: &CallPart) -> bool
    ensures { result ≡ is_call (call_of c.now) }
{
    are_matrices(&c.entry)
}

fn are_all_calls(calls: &[CallPart]) -> bool
    ensures { result ≡ list_all is_call (map call_of calls.now) }
{
    for c in calls {
        if !is_call(c) {
            return false;
        }
    }
    true
}

#[tactic(auto, using(crate::proofs::Callees::by_callee))]
fn calls_ascend(calls: &[CallPart]) -> bool
    ensures { result ≡ ascend is_callee_before (map call_of calls.now) }
{
    let mut last = None;
    for c in calls {
        if !is_above(last, c.callee) {
            return false;
        }
        last = Some(c.callee);
    }
    true
}

fn are_calls(calls: &[CallPart]) -> bool
    ensures { result ≡ are_calls (map call_of calls.now) }
{
    calls.len() < 4294967296 && are_all_calls(calls) && calls_ascend(calls)
}

fn is_write(write: WritePart) -> bool
    ensures { result ≡ is_write write }
{
    write.low <= write.high
}

fn are_all_writes(writes: &[WritePart]) -> bool
    ensures { result ≡ list_all is_write writes.now }
{
    writes.iter().all(|write| is_write(*write))
}

fn is_write_after(last: Option<WritePart>, write: WritePart) -> bool
    ensures { result ≡ is_after is_class_before last write }
{
    match last {
        None => true,
        Some(last) => last.class < write.class,
    }
}

fn writes_ascend(writes: &[WritePart]) -> bool
    ensures { result ≡ ascend is_class_before writes.now }
{
    let mut last = None;
    for write in writes {
        if !is_write_after(last, *write) {
            return false;
        }
        last = Some(*write);
    }
    true
}

fn are_writes(writes: &[WritePart]) -> bool
    ensures { result ≡ are_writes writes.now }
{
    writes.len() < 4294967296 && are_all_writes(writes) && writes_ascend(writes)
}

/// Whether a summary can be written: its matrices have 1 to 16 variables and bounds within 2^81, and its parts ascend by their numbers.
pub fn is_summary(a: &Artifact) -> bool
    ensures { result ≡ is_summary (artifact_of a.now) }
{
    is_state(&a.context) && is_state(&a.result) && are_calls(&a.calls) && are_writes(&a.writes)
}
