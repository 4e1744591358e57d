//! Reads the command line of `surveyor-view`.
#![tactic(auto)]

mod command;
mod fields;
mod wanted;
mod words;

pub use wanted::{View, Wanted};
pub use words::{WordsFault, read_words};
