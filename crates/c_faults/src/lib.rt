//! What checking a source answers in place of a result, with the offsets that order the tokens of one file.
#![tactic(auto)]

mod fault;
mod stop;

pub use fault::{Fault, Spot, sooner};
pub use stop::{Stop, refuse};
