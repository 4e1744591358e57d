//! Declarations with their initialisers, statements, and a function's body (ISO/IEC 9899:1999, 6.7 and 6.8).
#![tactic(auto)]

mod addresses;
mod body;
mod declarations;
mod filling;
mod initialisers;
mod knot;
mod nodes;
mod statements;
mod sub_objects;

pub use addresses::{Address, Addresses, Bases};
pub use body::{Body, Switch};
pub use declarations::{Level, Made, begin_declaration, declare, linked_words};
pub use initialisers::{Initialised, initialise};
pub use knot::{declarator, required, specifiers, value_of};
pub use statements::block;
