//! The tasks of the analysis in rounds: constraints and points-to sets, clusters, summaries that rise, close and fall, and the colours
//! of all sites.
#![tactic(auto)]

mod alone;
mod analysed;
mod analysis;
mod basis;
mod contexts;
mod facts;
mod standing;
mod tasks;
mod tops;

pub use alone::{Alone, colours_alone};
pub use analysed::Analysis;
pub use basis::{Basis, Past};
pub use standing::is_mark;
pub use tasks::Task;
