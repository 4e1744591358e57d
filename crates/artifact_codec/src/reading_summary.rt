ghost use Rattle.std.specs.Prelude.{map, ◌*◌, ◌+◌};
ghost use Rattle.core_ir.specs.Plain.{bounds_of, all_bounds, some_bounds, call_of, artifact_of};
ghost use Rattle.artifact_codec.specs.computed.Reading.{Gives, items_at, counted_at, entry_at, write_at, bounds_at, state_at, call_at, summary_at};

use crate::fields::{byte_at, entry_at, flag_at, number_at};
use crate::records::write_at;
use crate::refusal::Refusal;
use core_ir::{Artifact, Bounds, CallPart, WritePart};
use std::alloc::Global;

fn entries_of(
    alloc: Global,
    count: u32,
    bytes: &[u8],
) -> Result<(Vec<Option<i128>>, &[u8]), Refusal>
    ensures { Gives (λ x. (x.0.items, x.1.now)) result (items_at entry_at count bytes.now) }
{
    let mut entries = Vec::new(alloc);
    let mut rest = bytes;
    for _ in 0..count {
        let (item, after) = entry_at(rest)?;
        entries.push(item)?;
        rest = after;
    }
    Ok((entries, rest))
}

fn matrices_of(alloc: Global, count: u32, bytes: &[u8]) -> Result<(Vec<Bounds>, &[u8]), Refusal>
    ensures { Gives (λ x. (all_bounds x.0.items, x.1.now)) result (items_at bounds_at count bytes.now) }
{
    let mut matrices = Vec::new(alloc);
    let mut rest = bytes;
    for _ in 0..count {
        let (item, after) = bounds(alloc, rest)?;
        matrices.push(item)?;
        rest = after;
    }
    Ok((matrices, rest))
}

#[tactic(auto, unfolding(crate::specs::computed::Reading::counted_at))]
pub(crate) fn matrices(alloc: Global, bytes: &[u8]) -> Result<(Vec<Bounds>, &[u8]), Refusal>
    ensures { Gives (λ x. (all_bounds x.0.items, x.1.now)) result (counted_at bounds_at bytes.now) }
{
    let (count, rest) = number_at(bytes)?;
    matrices_of(alloc, count, rest)
}

fn calls_of(alloc: Global, count: u32, bytes: &[u8]) -> Result<(Vec<CallPart>, &[u8]), Refusal>
    ensures { Gives (λ x. (map call_of x.0.items, x.1.now)) result (items_at call_at count bytes.now) }
{
    let mut calls = Vec::new(alloc);
    let mut rest = bytes;
    for _ in 0..count {
        let (item, after) = call(alloc, rest)?;
        calls.push(item)?;
        rest = after;
    }
    Ok((calls, rest))
}

#[tactic(auto, unfolding(crate::specs::computed::Reading::counted_at))]
pub(crate) fn calls(alloc: Global, bytes: &[u8]) -> Result<(Vec<CallPart>, &[u8]), Refusal>
    ensures { Gives (λ x. (map call_of x.0.items, x.1.now)) result (counted_at call_at bytes.now) }
{
    let (count, rest) = number_at(bytes)?;
    calls_of(alloc, count, rest)
}

fn writes_of(alloc: Global, count: u32, bytes: &[u8]) -> Result<(Vec<WritePart>, &[u8]), Refusal>
    ensures { Gives (λ x. (x.0.items, x.1.now)) result (items_at write_at count bytes.now) }
{
    let mut writes = Vec::new(alloc);
    let mut rest = bytes;
    for _ in 0..count {
        let (item, after) = write_at(rest)?;
        writes.push(item)?;
        rest = after;
    }
    Ok((writes, rest))
}

#[tactic(auto, unfolding(crate::specs::computed::Reading::counted_at))]
pub(crate) fn writes(alloc: Global, bytes: &[u8]) -> Result<(Vec<WritePart>, &[u8]), Refusal>
    ensures { Gives (λ x. (x.0.items, x.1.now)) result (counted_at write_at bytes.now) }
{
    let (count, rest) = number_at(bytes)?;
    writes_of(alloc, count, rest)
}

#[tactic(auto, unfolding(crate::specs::computed::Reading::bounds_at))]
fn bounds(alloc: Global, bytes: &[u8]) -> Result<(Bounds, &[u8]), Refusal>
    ensures { Gives (λ x. (bounds_of x.0, x.1.now)) result (bounds_at bytes.now) }
{
    let (size, rest) = byte_at(bytes)?;
    let (entries, rest) = entries_of(alloc, size as u32 * (size as u32 + 1), rest)?;
    Ok((Bounds { size, entries }, rest))
}

#[tactic(auto, unfolding(crate::specs::computed::Reading::state_at))]
fn state(alloc: Global, bytes: &[u8]) -> Result<(Option<Vec<Bounds>>, &[u8]), Refusal>
    ensures { Gives (λ x. (some_bounds x.0, x.1.now)) result (state_at bytes.now) }
{
    let (there, rest) = flag_at(bytes)?;
    if !there {
        return Ok((None, rest));
    }
    let (matrices, rest) = matrices(alloc, rest)?;
    Ok((Some(matrices), rest))
}

#[tactic(auto, unfolding(crate::specs::computed::Reading::call_at))]
fn call(alloc: Global, bytes: &[u8]) -> Result<(CallPart, &[u8]), Refusal>
    ensures { Gives (λ x. (call_of x.0, x.1.now)) result (call_at bytes.now) }
{
    let (callee, rest) = number_at(bytes)?;
    let (entry, rest) = matrices(alloc, rest)?;
    Ok((CallPart { callee, entry }, rest))
}

#[tactic(auto, unfolding(crate::specs::computed::Reading::summary_at))]
pub(crate) fn summary(alloc: Global, bytes: &[u8]) -> Result<(Artifact, &[u8]), Refusal>
    ensures { Gives (λ x. (artifact_of x.0, x.1.now)) result (summary_at bytes.now) }
{
    let (changed, rest) = flag_at(bytes)?;
    let (context, rest) = state(alloc, rest)?;
    let (result, rest) = state(alloc, rest)?;
    let (calls, rest) = calls(alloc, rest)?;
    let (writes, rest) = writes(alloc, rest)?;
    let artifact = Artifact {
        changed,
        context,
        result,
        calls,
        writes,
    };
    Ok((artifact, rest))
}
