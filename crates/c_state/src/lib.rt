//! The state of the grammar in code: scopes, the declarations that are being read, and how deep nodes and loops are nested.
#![tactic(auto)]

mod frame;
mod frames;
mod loops;
mod nesting;
mod scopes;
mod visible;

pub use frame::Frame;
pub use frames::Frames;
pub use loops::Loops;
pub use nesting::Nesting;
pub use scopes::{Declaration, Scopes, Step};
