//! What a round of the analysis reads of the rounds before it: which stage it is, and the artifacts of constraints, points-to sets,
//! clusters and summaries. Artifacts that are missing, or no spelling of their kind, count as empty.
#![tactic(auto)]

mod access;
mod artifacts;
mod kept;
mod links;
mod sharing;
mod spreading;
mod stage;

pub use artifacts::Artifacts;
pub use kept::{Kept, Solved, bases, gathered_constraints};
pub use links::Links;
pub use sharing::{Contribution, contributions, leaf_intervals};
pub use spreading::{reached_in_all_steps, reached_in_one_step};
pub use stage::{FIRST_RISING, Stage, closing_round, stage_of};
