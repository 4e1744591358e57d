//! Cuts preprocessed C into tokens. `specs/Cuts.antt` says what the tokens of a text are, and which fault is its
//! first.
#![tactic(auto)]

mod bytes;
mod character;
mod constant;
mod directive;
mod laws;
mod lexer;
mod marks;
mod meaning;
mod shape;
mod space;
mod spot;
mod step;

pub use laws::tokens_are_unique;
pub use lexer::lex;
