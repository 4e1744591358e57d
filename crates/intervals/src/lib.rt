//! Intervals of integers, and what the operators of C make of them: each form has every defined result of operands in
//! its arguments.
#![tactic(auto)]

mod binary_forms;
mod bitwise;
mod casting;
mod comparing;
mod fitting;
mod interval;
mod pointer;
mod products;
mod quotients;
mod remainders;
mod shifts;
mod unary_forms;

pub use binary_forms::binary;
pub use casting::cast;
pub use comparing::compare;
pub use interval::{Interval, join, range_of, widen};
pub use pointer::{pointer_comparison, pointer_difference, pointer_to_int};
pub use unary_forms::unary;
