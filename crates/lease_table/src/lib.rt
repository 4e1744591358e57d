//! The lease machine: which tasks of a round are free, leased or done, and who may publish what.
#![tactic(auto)]

mod event;
mod laws;
mod lease;
mod standing;
mod tasks;
mod times;

pub use event::Event;
pub use laws::{
    artifacts_stay, done_tasks_stay, kept_one_by_one, rounds_are_full, steps_are_events,
    tickets_rise,
};
pub use lease::Lease;
pub use standing::{Abandoned, Claimed, Published, Standing};
