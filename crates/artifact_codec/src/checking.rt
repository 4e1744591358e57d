ghost use Rattle.std.specs.Prelude.{◌≡◌, None, nat_lt};
ghost use Rattle.artifact_codec.specs.Demands.{is_after, is_constraint, has_third};
ghost use Rattle.artifact_codec.specs.computed.Reading.{Reads};
ghost use Rattle.artifact_codec.specs.computed.Checking.{past_all, past_in_order, counted_past, ordered_past, next_constraint, next_number, next_site_colour, next_cluster, set_past};
ghost use Rattle.core_ir.specs.Constraints.{is_constraint_before};

use crate::fields::number_at;
use crate::records::{constraint_at, site_colour_at};
use crate::refusal::Malformed;
use core_ir::Constraint;

// Each of these goes past a value at the front of the bytes that meets its demands, and gives the bytes behind it. A `next`
// gives also what orders the values, and asks that it is after `last`.

fn has_third(rule: u8) -> bool
    ensures { result ≡ has_third rule }
{
    matches!(rule, 5 | 6 | 7)
}

fn is_constraint(c: Constraint) -> bool
    ensures { result ≡ is_constraint c }
{
    if c.rule < 1 {
        return false;
    }
    if c.rule > 8 {
        return false;
    }
    has_third(c.rule) || c.third == 0
}

fn is_constraint_after(last: Option<Constraint>, c: Constraint) -> bool
    ensures { result ≡ is_after is_constraint_before last c }
{
    match last {
        None => true,
        Some(last) => last < c,
    }
}

pub(crate) fn is_above(last: Option<u32>, n: u32) -> bool
    ensures { result ≡ is_after nat_lt last n }
{
    match last {
        None => true,
        Some(last) => last < n,
    }
}

#[tactic(auto, unfolding(crate::specs::computed::Checking::next_constraint))]
fn next_constraint(last: Option<Constraint>, bytes: &[u8]) -> Result<(Constraint, &[u8]), Malformed>
    ensures { Reads (λ x. (x.0, x.1.now)) result (next_constraint last bytes.now) }
{
    let (constraint, rest) = constraint_at(bytes)?;
    if !is_constraint(constraint) {
        return Err(Malformed);
    }
    if !is_constraint_after(last, constraint) {
        return Err(Malformed);
    }
    Ok((constraint, rest))
}

fn constraints_in_order(count: u32, bytes: &[u8]) -> Result<&[u8], Malformed>
    ensures { Reads (λ rest. rest.now) result (past_in_order next_constraint count None bytes.now) }
{
    let mut last = None;
    let mut rest = bytes;
    for _ in 0..count {
        let (item, after) = next_constraint(last, rest)?;
        last = Some(item);
        rest = after;
    }
    Ok(rest)
}

#[tactic(auto, unfolding(crate::specs::computed::Checking::ordered_past))]
pub(crate) fn constraints_past(bytes: &[u8]) -> Result<&[u8], Malformed>
    ensures { Reads (λ rest. rest.now) result (ordered_past next_constraint bytes.now) }
{
    let (count, rest) = number_at(bytes)?;
    constraints_in_order(count, rest)
}

#[tactic(auto, unfolding(crate::specs::computed::Checking::next_site_colour))]
fn next_site_colour(last: Option<u32>, bytes: &[u8]) -> Result<(u32, &[u8]), Malformed>
    ensures { Reads (λ x. (x.0, x.1.now)) result (next_site_colour last bytes.now) }
{
    let ((site, _), rest) = site_colour_at(bytes)?;
    if !is_above(last, site.0) {
        return Err(Malformed);
    }
    Ok((site.0, rest))
}

fn colours_in_order(count: u32, bytes: &[u8]) -> Result<&[u8], Malformed>
    ensures { Reads (λ rest. rest.now) result (past_in_order next_site_colour count None bytes.now) }
{
    let mut last = None;
    let mut rest = bytes;
    for _ in 0..count {
        let (item, after) = next_site_colour(last, rest)?;
        last = Some(item);
        rest = after;
    }
    Ok(rest)
}

#[tactic(auto, unfolding(crate::specs::computed::Checking::ordered_past))]
pub(crate) fn colours_past(bytes: &[u8]) -> Result<&[u8], Malformed>
    ensures { Reads (λ rest. rest.now) result (ordered_past next_site_colour bytes.now) }
{
    let (count, rest) = number_at(bytes)?;
    colours_in_order(count, rest)
}

#[tactic(auto, unfolding(crate::specs::computed::Checking::next_number))]
pub(crate) fn next_number(last: Option<u32>, bytes: &[u8]) -> Result<(u32, &[u8]), Malformed>
    ensures { Reads (λ x. (x.0, x.1.now)) result (next_number last bytes.now) }
{
    let (number, rest) = number_at(bytes)?;
    if !is_above(last, number) {
        return Err(Malformed);
    }
    Ok((number, rest))
}

fn numbers_in_order(count: u32, above: Option<u32>, bytes: &[u8]) -> Result<&[u8], Malformed>
    ensures { Reads (λ rest. rest.now) result (past_in_order next_number count above bytes.now) }
{
    let mut last = above;
    let mut rest = bytes;
    for _ in 0..count {
        let (item, after) = next_number(last, rest)?;
        last = Some(item);
        rest = after;
    }
    Ok(rest)
}

#[tactic(auto, unfolding(crate::specs::computed::Checking::set_past, crate::specs::computed::Checking::ordered_past))]
fn set_past(bytes: &[u8]) -> Result<&[u8], Malformed>
    ensures { Reads (λ rest. rest.now) result (set_past bytes.now) }
{
    let (count, rest) = number_at(bytes)?;
    numbers_in_order(count, None, rest)
}

fn past_sets(count: u32, bytes: &[u8]) -> Result<&[u8], Malformed>
    ensures { Reads (λ rest. rest.now) result (past_all set_past count bytes.now) }
{
    let mut rest = bytes;
    for _ in 0..count {
        rest = set_past(rest)?;
    }
    Ok(rest)
}

#[tactic(auto, unfolding(crate::specs::computed::Checking::counted_past))]
pub(crate) fn sets_past(bytes: &[u8]) -> Result<&[u8], Malformed>
    ensures { Reads (λ rest. rest.now) result (counted_past set_past bytes.now) }
{
    let (count, rest) = number_at(bytes)?;
    past_sets(count, rest)
}

#[tactic(auto, unfolding(crate::specs::computed::Checking::next_cluster))]
fn next_cluster(last: Option<u32>, bytes: &[u8]) -> Result<(u32, &[u8]), Malformed>
    ensures { Reads (λ x. (x.0, x.1.now)) result (next_cluster last bytes.now) }
{
    let (size, rest) = number_at(bytes)?;
    if size < 1 {
        return Err(Malformed);
    }
    if size > 16 {
        return Err(Malformed);
    }
    let (first, rest) = next_number(last, rest)?;
    let rest = numbers_in_order(size - 1, Some(first), rest)?;
    Ok((first, rest))
}

fn clusters_in_order(count: u32, bytes: &[u8]) -> Result<&[u8], Malformed>
    ensures { Reads (λ rest. rest.now) result (past_in_order next_cluster count None bytes.now) }
{
    let mut last = None;
    let mut rest = bytes;
    for _ in 0..count {
        let (item, after) = next_cluster(last, rest)?;
        last = Some(item);
        rest = after;
    }
    Ok(rest)
}

#[tactic(auto, unfolding(crate::specs::computed::Checking::ordered_past))]
pub(crate) fn clusters_in_place(bytes: &[u8]) -> Result<&[u8], Malformed>
    ensures { Reads (λ rest. rest.now) result (ordered_past next_cluster bytes.now) }
{
    let (count, rest) = number_at(bytes)?;
    clusters_in_order(count, rest)
}
