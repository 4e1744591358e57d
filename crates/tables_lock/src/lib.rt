//! A lock round tables: one thread at a time has them, and no thread can put others in their place.
#![tactic(auto)]

mod guard;
mod lock;

pub use guard::View;
pub use lock::{Lock, Seat};
