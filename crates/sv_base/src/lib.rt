//! What every crate of surveyor names: numbers of files, functions and sites, places, colours, faults, and the two
//! errors that come from outside the program text: want of memory and a failed disk.
#![tactic(auto)]

mod colour;
mod errors;
mod fault;
pub mod faults;
mod ids;
pub mod limits;
mod names;
mod place;

pub use colour::Colour;
pub use errors::{DiskFailed, NoMemory};
pub use fault::{FaultKind, FrontFault, SourceFault};
pub use ids::{FileId, FuncId, SiteId};
pub use names::{MOST_NAMES, Names, NamesFull};
pub use place::Place;
