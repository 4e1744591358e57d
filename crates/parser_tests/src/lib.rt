//! Tests of the lexer and the parser together, on whole files.
#![tactic(auto)]

#[cfg(test)]
mod files;
