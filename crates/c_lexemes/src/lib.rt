//! The tokens of a file as the grammar sees them: names by their numbers, and texts with their escapes read.
#![tactic(auto)]

mod extension;
mod lexemes;
mod texts;

pub use lexemes::{Lexemes, lexemes_of};
