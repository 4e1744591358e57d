use crate::known::Known;
use crate::lookups::Lookups;
use intervals::Interval;
use std::alloc::Global;
use sv_base::{Colour, NoMemory};
use var_state::State;

fn fits_all(offsets: Interval, width: u64, lengths: &[u64]) -> bool {
    if offsets.low < 0 {
        return false;
    }
    let end = offsets.high.saturating_add(i128::from(width));
    lengths.iter().all(|length| end <= i128::from(*length))
}

fn leaves_all(offsets: Interval, width: u64, lengths: &[u64]) -> bool {
    if offsets.high < 0 {
        return true;
    }
    let start = offsets.low.saturating_add(i128::from(width));
    lengths.iter().all(|length| i128::from(*length) < start)
}

fn colour_of(offsets: Interval, width: u64, lengths: &[u64]) -> Colour {
    if lengths.is_empty() {
        return Colour::Orange;
    }
    if fits_all(offsets, width, lengths) {
        return Colour::Green;
    }
    if leaves_all(offsets, width, lengths) {
        return Colour::Red;
    }
    Colour::Orange
}

/// The colour of an access of `width` bytes at an address that points into regions of these lengths, in the state before its
/// check.
pub fn colour(state: &State, address: u32, width: u64, lengths: &[u64]) -> Colour {
    match state.bounds(address) {
        Some(offsets) => return colour_of(offsets, width, lengths),
        None => return Colour::Unreachable,
    }
}

/// The colour of an access of `width` bytes at an address, with the lengths of the regions to which it may point.
pub fn colour_at(
    state: &State,
    address: u32,
    width: u64,
    facts: Known<'_>,
    lookups: &mut Lookups,
) -> Result<Colour, NoMemory> {
    match lookups.lengths(facts, address)? {
        Some((shortest, longest)) => Ok(colour(state, address, width, &[shortest, longest])),
        None => Ok(colour(state, address, width, &[])),
    }
}
