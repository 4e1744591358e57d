//! Difference-bound matrices: bounds on the differences of up to sixteen integer variables and the constant zero, with
//! closure exact against path weights.
//! Antoine Miné, "A New Numerical Abstract Domain Based on Difference-Bound Matrices", 2001.
#![tactic(auto)]

mod cells;
mod closing;
mod matrix;
mod values;

pub use closing::Closing;
pub use matrix::Matrix;
