//! Expressions: each gets its type, its conversions and its sites, or the first fault in token order (ISO/IEC 9899:1999, 6.5).
#![tactic(auto)]

mod expressions;
mod leaves;

pub use expressions::Expressions;
