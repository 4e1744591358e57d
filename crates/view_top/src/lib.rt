//! What `surveyor-view` does: it reads a report, its sources and notes, and puts what is asked for.
#![tactic(auto)]

mod answering;
mod compared;
mod failure;
mod fitting;
mod loading;
mod reading;
mod top;

pub use top::view;
