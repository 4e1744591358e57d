//! What is known of a function's registers at a place of its body: bounds of each register, and of the differences of
//! registers of one cluster.
//! Antoine Miné, "A New Numerical Abstract Domain Based on Difference-Bound Matrices", 2001.
#![tactic(auto)]

mod assuming;
mod cells;
mod changes;
mod closing;
mod cluster;
mod frame;
mod grid;
mod open;
mod opening;
mod patch;
mod range;
mod recent;
mod running;
mod state;
mod trail;

pub use frame::Layout;
pub use patch::{Patch, Widening};
pub use running::Running;
pub use state::State;
