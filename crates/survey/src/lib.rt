//! The checker: it reads the words of a command line, loads the files, and puts the report.
#![tactic(auto)]

mod answer;
mod answering;
mod asked;
mod colours;
mod ending;
mod first;
mod general;
mod loading;
mod telling;
mod top;
mod words;

pub use answer::Answer;
pub use answering::answer_of;
pub use asked::Asked;
pub use ending::{Ending, complaint, status_number};
pub use general::{assumed_of, first_name, lines_of, refusal};
pub use loading::load_all;
pub use top::survey_alone;
