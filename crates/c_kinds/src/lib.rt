//! Tests of tokens by their kinds, and what they carry: each is the function of the same name of the grammar.
#![tactic(auto)]

pub mod keywords;
pub mod kinds;
pub mod operators;
