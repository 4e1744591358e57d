//! Files, function definitions and linking (ISO/IEC 9899:1999, 6.9): from the syntax trees of all files to the typed program.
#![tactic(auto)]

mod assembly;
mod definitions;
mod entries;
mod externals;
mod files;
mod linking;
mod names;
mod statics;

pub use linking::link;
