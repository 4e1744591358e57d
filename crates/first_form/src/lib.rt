//! Reads a source file. So far one form of file alone is accepted: arrays of `int`, and a `main` that stores numbers
//! at constant subscripts. The definitions say what its tokens are, which files are of the form, and what a run of
//! such a program does.
#![tactic(auto)]

mod bytes;
mod cursor;
mod grammar;
mod laws;
mod lexer;
mod names;
mod numbers;
mod program;
mod reading;
mod refusal;
mod reserved;
mod token;

pub use laws::{form_is_unique, reading_is_the_form, tokens_are_unique};
pub use program::{Array, Program, Store};
pub use reading::front;
