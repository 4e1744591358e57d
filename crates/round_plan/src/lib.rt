//! The analysis of a program as rounds of tasks that many workers may do, over tables that keep what was done.
#![tactic(auto)]

mod past;
mod plan;
mod stored;

pub use plan::Plan;
pub use stored::stored_colours;
