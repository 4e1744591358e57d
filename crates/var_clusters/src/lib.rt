//! The clusters of a function's registers, which share a matrix in the analysis.
#![tactic(auto)]

mod gathering;
mod pairs;
mod partition;

pub use gathering::clusters;
