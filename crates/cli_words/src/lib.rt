//! Reads surveyor's command line.
#![tactic(auto)]

mod calls;
mod command;
mod fields;
mod numbers;
mod options;
mod words;

pub use options::{Command, Settings};
pub use words::{WordsFault, settings};
