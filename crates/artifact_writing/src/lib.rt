//! Artifacts as bytes, where they meet the demands of their spelling.
#![tactic(auto)]

mod demands;
mod summaries;
mod writing;

pub use demands::{are_colours, are_constraints, are_sets};
pub use summaries::is_summary;
pub use writing::{write, write_clusters};
