//! Whether a core program is what the analysis asks for: its numbers, its objects and its class table, the values with which static
//! objects begin, and its functions.
#![tactic(auto)]

mod counts;
mod places;
mod registers;
mod rooms;
mod starts;
mod values;
mod whole;

pub use whole::fits;
