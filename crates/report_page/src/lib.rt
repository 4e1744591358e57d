//! The page of a report: one file of HTML that needs no network.
#![tactic(auto)]

mod escape;
mod head;
mod html;
mod listing;
mod marks;
mod order;
mod source;
mod summary;
mod titles;

pub use escape::{escaped_text_has_no_marks, push_html};
pub use html::html_text;
