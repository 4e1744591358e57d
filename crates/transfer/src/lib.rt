//! What the steps of a function make of a state of the analysis, and what they contribute to callees and to leaf classes; the
//! colour of an access.
#![tactic(auto)]

mod calling;
mod colouring;
mod gathered;
mod giving;
mod known;
mod leaves;
mod loading;
mod lookups;
mod near;
mod operands;
mod parts;
mod results;
mod setting;
mod stepping;

pub use colouring::{colour, colour_at};
pub use gathered::Gathered;
pub use known::Known;
pub use lookups::Lookups;
pub use stepping::{after, assume, given, step};
