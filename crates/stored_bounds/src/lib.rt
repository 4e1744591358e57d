//! Matrices of bounds as artifacts store them: over the registers of a cluster that a caller or a callee sees.
#![tactic(auto)]

mod closing;
mod entries;
mod groups;
mod ranges;

pub use closing::{closed, joined};
pub use entries::{bound_at, copied, unbounded, widened};
pub use groups::{entry_groups, result_groups};
pub use ranges::{leaf_range, unknown};
