//! Calls of `memset`, `memcpy` and `memmove` that no file defines (ISO/IEC 9899:1999, 7.21.2 and 7.21.6.1) become calls of functions of
//! the program: each has one of its own, whose body does what the call does.
#![tactic(auto)]

mod bodies;
mod externals;
mod known;
mod maker;
mod renumber;
mod whole;

pub use whole::redirect;
