//! With what the objects of static duration begin: the values of their initialisers, and by leaf class the numbers and the pointers
//! that these give.
#![tactic(auto)]

mod constants;
mod counts;
mod entries;
mod places;
mod starts;
mod unions;

pub use constants::integer;
pub use entries::{Entry, sorted_entries};
pub use starts::{Starts, starts_of};
