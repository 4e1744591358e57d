//! Expressions (ISO/IEC 9899:1999, 6.5), read over a function that reads those inside and one that reads type names.
#![tactic(auto)]

mod binary;
mod conditional;
mod form;
mod nodes;
mod postfix;
mod reader;
mod unary;

pub use form::Form;
pub use reader::Expressions;
