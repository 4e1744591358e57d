//! The colour of a site from the visits that the analysis made of it.
#![tactic(auto)]

mod merging;

pub use merging::colours;
