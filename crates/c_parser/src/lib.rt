//! Reads the tokens of a file as a syntax tree.
#![tactic(auto)]

mod declarations;
mod external;
mod initialisers;
mod inside;
mod iteration;
mod jumps;
mod outcome;
mod refused;
mod selection;
mod statements;

pub use outcome::parse;
