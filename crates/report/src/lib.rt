//! The texts of surveyor: the report over all sites, and the line that names a fault of the source. `docs/FORMATS.md` has
//! both, with the table of faults.
#![tactic(auto)]

mod faults;
mod line;
mod lines;
mod pieces;

pub use faults::fault_text;
pub use line::Line;
pub use lines::{report_status, report_text, totals_text};
