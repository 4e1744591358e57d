ghost use Rattle.std.specs.Prelude.{◌≡◌, None};
ghost use Rattle.artifact_codec.specs.Demands.{is_bound, is_entry, is_write};
ghost use Rattle.artifact_codec.specs.computed.Reading.{Reads};
ghost use Rattle.artifact_codec.specs.computed.Checking.{past_all, past_in_order, counted_past, ordered_past, entry_past, bounds_past, matrices_past, state_past, next_call, next_write, summary_past};

use crate::checking::{is_above, next_number};
use crate::fields::{byte_at, entry_at, flag_at, number_at};
use crate::records::write_at;
use crate::refusal::Malformed;
use core_ir::WritePart;

// As in `checking`, for summaries.

const MOST: i128 = 2417851639229258349412352;

fn is_bound(z: i128) -> bool
    ensures { result ≡ is_bound z }
{
    if z < -MOST {
        return false;
    }
    z <= MOST
}

fn is_entry(entry: Option<i128>) -> bool
    ensures { result ≡ is_entry entry }
{
    match entry {
        None => true,
        Some(bound) => is_bound(bound),
    }
}

#[tactic(auto, unfolding(crate::specs::computed::Checking::entry_past))]
fn entry_past(bytes: &[u8]) -> Result<&[u8], Malformed>
    ensures { Reads (λ rest. rest.now) result (entry_past bytes.now) }
{
    let (entry, rest) = entry_at(bytes)?;
    if !is_entry(entry) {
        return Err(Malformed);
    }
    Ok(rest)
}

fn past_entries(count: u32, bytes: &[u8]) -> Result<&[u8], Malformed>
    ensures { Reads (λ rest. rest.now) result (past_all entry_past count bytes.now) }
{
    let mut rest = bytes;
    for _ in 0..count {
        rest = entry_past(rest)?;
    }
    Ok(rest)
}

#[tactic(auto, unfolding(crate::specs::computed::Checking::bounds_past))]
fn bounds_past(bytes: &[u8]) -> Result<&[u8], Malformed>
    ensures { Reads (λ rest. rest.now) result (bounds_past bytes.now) }
{
    let (size, rest) = byte_at(bytes)?;
    if size < 1 {
        return Err(Malformed);
    }
    if size > 16 {
        return Err(Malformed);
    }
    past_entries(size as u32 * (size as u32 + 1), rest)
}

fn past_matrices(count: u32, bytes: &[u8]) -> Result<&[u8], Malformed>
    ensures { Reads (λ rest. rest.now) result (past_all bounds_past count bytes.now) }
{
    let mut rest = bytes;
    for _ in 0..count {
        rest = bounds_past(rest)?;
    }
    Ok(rest)
}

#[tactic(auto, unfolding(crate::specs::computed::Checking::matrices_past, crate::specs::computed::Checking::counted_past))]
fn matrices_past(bytes: &[u8]) -> Result<&[u8], Malformed>
    ensures { Reads (λ rest. rest.now) result (matrices_past bytes.now) }
{
    let (count, rest) = number_at(bytes)?;
    past_matrices(count, rest)
}

#[tactic(auto, unfolding(crate::specs::computed::Checking::state_past))]
fn state_past(bytes: &[u8]) -> Result<&[u8], Malformed>
    ensures { Reads (λ rest. rest.now) result (state_past bytes.now) }
{
    let (there, rest) = flag_at(bytes)?;
    if !there {
        return Ok(rest);
    }
    matrices_past(rest)
}

#[tactic(auto, unfolding(crate::specs::computed::Checking::next_call))]
fn next_call(last: Option<u32>, bytes: &[u8]) -> Result<(u32, &[u8]), Malformed>
    ensures { Reads (λ x. (x.0, x.1.now)) result (next_call last bytes.now) }
{
    let (callee, rest) = next_number(last, bytes)?;
    let rest = matrices_past(rest)?;
    Ok((callee, rest))
}

fn calls_in_order(count: u32, bytes: &[u8]) -> Result<&[u8], Malformed>
    ensures { Reads (λ rest. rest.now) result (past_in_order next_call count None bytes.now) }
{
    let mut last = None;
    let mut rest = bytes;
    for _ in 0..count {
        let (item, after) = next_call(last, rest)?;
        last = Some(item);
        rest = after;
    }
    Ok(rest)
}

#[tactic(auto, unfolding(crate::specs::computed::Checking::ordered_past))]
fn calls_past(bytes: &[u8]) -> Result<&[u8], Malformed>
    ensures { Reads (λ rest. rest.now) result (ordered_past next_call bytes.now) }
{
    let (count, rest) = number_at(bytes)?;
    calls_in_order(count, rest)
}

fn is_write(write: WritePart) -> bool
    ensures { result ≡ is_write write }
{
    write.low <= write.high
}

#[tactic(auto, unfolding(crate::specs::computed::Checking::next_write))]
fn next_write(last: Option<u32>, bytes: &[u8]) -> Result<(u32, &[u8]), Malformed>
    ensures { Reads (λ x. (x.0, x.1.now)) result (next_write last bytes.now) }
{
    let (write, rest) = write_at(bytes)?;
    if !is_write(write) {
        return Err(Malformed);
    }
    if !is_above(last, write.class) {
        return Err(Malformed);
    }
    Ok((write.class, rest))
}

fn writes_in_order(count: u32, bytes: &[u8]) -> Result<&[u8], Malformed>
    ensures { Reads (λ rest. rest.now) result (past_in_order next_write count None bytes.now) }
{
    let mut last = None;
    let mut rest = bytes;
    for _ in 0..count {
        let (item, after) = next_write(last, rest)?;
        last = Some(item);
        rest = after;
    }
    Ok(rest)
}

#[tactic(auto, unfolding(crate::specs::computed::Checking::ordered_past))]
fn writes_past(bytes: &[u8]) -> Result<&[u8], Malformed>
    ensures { Reads (λ rest. rest.now) result (ordered_past next_write bytes.now) }
{
    let (count, rest) = number_at(bytes)?;
    writes_in_order(count, rest)
}

#[tactic(auto, unfolding(crate::specs::computed::Checking::summary_past))]
pub(crate) fn summary_past(bytes: &[u8]) -> Result<&[u8], Malformed>
    ensures { Reads (λ rest. rest.now) result (summary_past bytes.now) }
{
    let (_, rest) = flag_at(bytes)?;
    let rest = state_past(rest)?;
    let rest = state_past(rest)?;
    let rest = calls_past(rest)?;
    writes_past(rest)
}
