//! The front end: the bytes of all files to the core program, or the first fault.
#![tactic(auto)]

mod files;
mod phases;

pub use files::{Program, SourceFile};
pub use phases::front;
