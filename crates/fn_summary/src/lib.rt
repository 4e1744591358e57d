//! The analysis of one function: from what is known of its arguments, of memory and of its callees, what it gives back, what it
//! contributes to its callees and to memory, and the colours of its sites.
#![tactic(auto)]

mod analysing;
mod bodies;
mod combining;
mod entry;
mod findings;
mod likeness;
mod matrices;
mod recall;
mod walk;

pub use analysing::{analyse, analyse_in};
pub use findings::{Findings, Phase, Situation};
pub use likeness::have_same_parts;
