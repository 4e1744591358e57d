//! The checker over a database: one thread computes what is missing in it, and the report is made of it. What a check by
//! workers does before and behind its threads stands here too.
#![tactic(auto)]

mod concluding;
mod ended;
mod ending;
mod opening;
mod preparing;
mod request;
mod telling;
mod texts;
mod top;
mod trial;

pub use concluding::conclude;
pub use ended::Ended;
pub use ending::{Ending, status_of};
pub use opening::open_tables;
pub use preparing::{Prepared, prepare};
pub use request::{Request, check_of};
pub use telling::tell;
pub use top::survey_stored;
pub use trial::survey_trial;
