//! Specifiers, declarators, parameters and type names (ISO/IEC 9899:1999, 6.7), read over functions that read those inside.
#![tactic(auto)]

mod content;
mod declarator;
mod declared;
mod mode;
mod parameters;
mod reader;
mod specifiers;

pub use declared::{Declared, Spot};
pub use mode::Mode;
pub use reader::Declarators;
