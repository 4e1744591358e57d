//! Artifacts as bytes: each has one spelling, which is written, read back, and told from all other bytes.
#![tactic(auto)]

mod checking;
mod checking_summary;
mod decoding;
mod encoding;
mod fields;
mod laws;
mod reading;
mod reading_summary;
mod records;
mod refusal;
mod spelled;
mod window;
mod writing;
mod writing_summary;

pub use decoding::decode;
pub use encoding::encode;
pub use laws::{
    artifacts_that_fit_meet_the_demands, clusters_that_fit_meet_the_demands,
    no_spelling_begins_another, six_is_no_spelling, spellings_are_unique,
};
pub use spelled::spells;
