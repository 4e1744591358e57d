//! Inclusion-based points-to sets.
//! Lars Ole Andersen, "Program Analysis and Specialization for the C Programming Language", 1994.
#![tactic(auto)]

mod bits;
mod block;
mod blocks;
mod closure;
mod fitting;
mod linking;
mod progress;
mod reacting;
mod readers;
mod rule;
mod solving;
mod table;

pub use bits::Bits;
pub use closure::closed;
pub use fitting::fits;
pub use rule::Rule;
pub use solving::solve;
