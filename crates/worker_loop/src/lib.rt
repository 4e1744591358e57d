//! What does the tasks of a work over its tables: on many threads, or all that is left of it on one.
#![tactic(auto)]

mod answers;
mod finishing;
mod working;

pub use finishing::finish;
pub use working::work;
