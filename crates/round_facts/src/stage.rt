// Which stage of the analysis a round is.

use crate::artifacts::Artifacts;
use crate::kept::summary_has_changed;
use std::alloc::Global;
use sv_base::NoMemory;

/// The stages in their order. Each has a task for each function, but `Solution` one alone.
#[derive(Clone, Copy, Debug, PartialEq, Eq)]
pub enum Stage {
    Constraints,
    Solution,
    Clusters,
    /// Summaries grow: in the first two rounds by joins, and then by widening.
    Rising { widens: bool },
    /// What still grows goes to the top.
    Closing,
    Falling { is_first: bool },
    Colours,
    End,
}

/// The first round in which summaries grow.
pub const FIRST_RISING: u32 = 3;

// Rounds of falling summaries.
const FALLING: u32 = 4;

// Whether all summaries of the round say that they are as in the round before.
fn has_settled(
    alloc: Global,
    shelf: &impl Artifacts,
    round: u32,
    functions: u32,
) -> Result<bool, NoMemory> {
    for f in 0..functions {
        if summary_has_changed(alloc, shelf, round, f)? {
            return Ok(false);
        }
    }
    Ok(true)
}

/// The round that closes: it follows the first round of rising summaries that are all as in the round before, or the last that `limit`
/// allows. `round` is the one that is planned.
pub fn closing_round(
    alloc: Global,
    shelf: &impl Artifacts,
    round: u32,
    functions: u32,
    limit: u32,
) -> Result<u32, NoMemory> {
    let last = limit.saturating_add(FIRST_RISING);
    match shelf.still() {
        Some(still) => Ok(if still <= FIRST_RISING {
            FIRST_RISING + 1
        } else {
            last.min(still)
        }),
        None
            if FIRST_RISING < round
                && round < last
                && has_settled(alloc, shelf, round - 1, functions)? => Ok(round),
        None => Ok(last),
    }
}

fn later_stage(round: u32, closing: u32) -> Stage {
    if round < closing {
        return Stage::Rising {
            widens: FIRST_RISING + 2 <= round,
        };
    }
    let after = round - closing;
    if after == 0 {
        Stage::Closing
    } else if after <= FALLING {
        Stage::Falling {
            is_first: after == 1,
        }
    } else if after == FALLING + 1 {
        Stage::Colours
    } else {
        Stage::End
    }
}

/// The stage of a round, by the rounds before it. At most `limit` rounds of summaries rise.
pub fn stage_of(
    alloc: Global,
    shelf: &impl Artifacts,
    round: u32,
    functions: u32,
    limit: u32,
) -> Result<Stage, NoMemory> {
    match round {
        0 => Ok(Stage::Constraints),
        1 => Ok(Stage::Solution),
        2 => Ok(Stage::Clusters),
        _ => Ok(later_stage(round, closing_round(alloc, shelf, round, functions, limit)?)),
    }
}
