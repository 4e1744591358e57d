//! What stands directly inside an expression or a statement of the typed program, for walks by lists of what is left.
#![tactic(auto)]

mod expressions;
mod statements;

pub use expressions::push_parts;
pub use statements::{push_expressions, push_inner};
