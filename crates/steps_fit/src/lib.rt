//! Whether the functions of a core program fit: what their steps name is there, and what they put into a register may stand there.
#![tactic(auto)]

mod body;
mod calls;
mod functions;
mod models;
mod operands;
mod owners;
mod ranges;
mod setting;
mod values;

pub use functions::functions_fit;
pub use owners::owners_of;
