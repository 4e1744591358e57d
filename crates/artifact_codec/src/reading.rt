ghost use Rattle.core_ir.specs.Plain.{lists_of};
ghost use Rattle.artifact_codec.specs.computed.Reading.{Gives, items_at, counted_at, number_at, numbers_at, constraint_at, site_colour_at};

use crate::fields::number_at;
use crate::records::{constraint_at, site_colour_at};
use crate::refusal::Refusal;
use core_ir::Constraint;
use std::alloc::Global;
use sv_base::{Colour, SiteId};

fn constraints_of(
    alloc: Global,
    count: u32,
    bytes: &[u8],
) -> Result<(Vec<Constraint>, &[u8]), Refusal>
    ensures { Gives (λ x. (x.0.items, x.1.now)) result (items_at constraint_at count bytes.now) }
{
    let mut constraints = Vec::new(alloc);
    let mut rest = bytes;
    for _ in 0..count {
        let (item, after) = constraint_at(rest)?;
        constraints.push(item)?;
        rest = after;
    }
    Ok((constraints, rest))
}

#[tactic(auto, unfolding(crate::specs::computed::Reading::counted_at))]
pub(crate) fn constraints(alloc: Global, bytes: &[u8]) -> Result<(Vec<Constraint>, &[u8]), Refusal>
    ensures { Gives (λ x. (x.0.items, x.1.now)) result (counted_at constraint_at bytes.now) }
{
    let (count, rest) = number_at(bytes)?;
    constraints_of(alloc, count, rest)
}

fn numbers_of(alloc: Global, count: u32, bytes: &[u8]) -> Result<(Vec<u32>, &[u8]), Refusal>
    ensures { Gives (λ x. (x.0.items, x.1.now)) result (items_at number_at count bytes.now) }
{
    let mut numbers = Vec::new(alloc);
    let mut rest = bytes;
    for _ in 0..count {
        let (item, after) = number_at(rest)?;
        numbers.push(item)?;
        rest = after;
    }
    Ok((numbers, rest))
}

#[tactic(auto, unfolding(crate::specs::computed::Reading::counted_at))]
pub(crate) fn numbers(alloc: Global, bytes: &[u8]) -> Result<(Vec<u32>, &[u8]), Refusal>
    ensures { Gives (λ x. (x.0.items, x.1.now)) result (counted_at number_at bytes.now) }
{
    let (count, rest) = number_at(bytes)?;
    numbers_of(alloc, count, rest)
}

fn lists_of(alloc: Global, count: u32, bytes: &[u8]) -> Result<(Vec<Vec<u32>>, &[u8]), Refusal>
    ensures { Gives (λ x. (lists_of x.0.items, x.1.now)) result (items_at numbers_at count bytes.now) }
{
    let mut lists = Vec::new(alloc);
    let mut rest = bytes;
    for _ in 0..count {
        let (item, after) = numbers(alloc, rest)?;
        lists.push(item)?;
        rest = after;
    }
    Ok((lists, rest))
}

#[tactic(auto, unfolding(crate::specs::computed::Reading::counted_at))]
pub(crate) fn lists(alloc: Global, bytes: &[u8]) -> Result<(Vec<Vec<u32>>, &[u8]), Refusal>
    ensures { Gives (λ x. (lists_of x.0.items, x.1.now)) result (counted_at numbers_at bytes.now) }
{
    let (count, rest) = number_at(bytes)?;
    lists_of(alloc, count, rest)
}

fn colours_of(
    alloc: Global,
    count: u32,
    bytes: &[u8],
) -> Result<(Vec<(SiteId, Colour)>, &[u8]), Refusal>
    ensures { Gives (λ x. (x.0.items, x.1.now)) result (items_at site_colour_at count bytes.now) }
{
    let mut colours = Vec::new(alloc);
    let mut rest = bytes;
    for _ in 0..count {
        let (item, after) = site_colour_at(rest)?;
        colours.push(item)?;
        rest = after;
    }
    Ok((colours, rest))
}

#[tactic(auto, unfolding(crate::specs::computed::Reading::counted_at))]
pub(crate) fn colours(
    alloc: Global,
    bytes: &[u8],
) -> Result<(Vec<(SiteId, Colour)>, &[u8]), Refusal>
    ensures { Gives (λ x. (x.0.items, x.1.now)) result (counted_at site_colour_at bytes.now) }
{
    let (count, rest) = number_at(bytes)?;
    colours_of(alloc, count, rest)
}
