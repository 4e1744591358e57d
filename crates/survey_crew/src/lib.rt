//! The checker over a database, by workers on threads of their own.
#![tactic(auto)]

mod top;

pub use top::survey;
