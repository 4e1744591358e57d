//! Closure after one bound, or a few, on a closed difference-bound matrix, in time by the square of its size.
//! Antoine Miné, "A New Numerical Abstract Domain Based on Difference-Bound Matrices", 2001.
#![tactic(auto)]

mod one_bound;
mod pending;

pub use one_bound::tighten;
pub use pending::Pending;
