//! Lowers a typed program to a core program: objects and registers, expressions in the order of their evaluation, and statements as
//! blocks, loops and exits.
#![tactic(auto)]

mod branches;
mod calls;
mod code;
mod conditions;
mod context;
mod functions;
mod initial;
mod loops;
mod plan;
mod program;
mod rest;
mod statements;
mod switches;
mod uses;
mod values;

pub use program::lower;
