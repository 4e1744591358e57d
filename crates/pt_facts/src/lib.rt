//! The constraints on points-to sets that a program's functions give.
#![tactic(auto)]

mod body;
mod caller;
mod facts;
mod laws;
mod nodes;
mod starts;

pub use facts::constraints;
pub use laws::programs_that_fit_have_room;
