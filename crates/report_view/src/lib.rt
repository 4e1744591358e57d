//! What a reviewer sees of a report: the sites that want a look, the notes of reviewers on them, and what changed between
//! two reports. `docs/USING.md` has the formats.
#![tactic(auto)]

mod changes;
mod fields;
mod letters;
mod lines;
mod notes;
mod read;
mod site;
mod sources;

pub use changes::{Changes, changes_text};
pub use letters::{push_escaped, push_pieces, push_shown};
pub use lines::{colour_word, is_alarm, review_text};
pub use notes::{Note, NotesFault, read_notes};
pub use read::{Report, ReportFault, read_report};
pub use site::{Site, sites_of, whole_key};
pub use sources::{Sources, source_lines};
