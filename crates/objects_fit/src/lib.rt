//! The objects of a core program as numbered nodes, and whether they are laid out as C has it and the class table says what they are.
//! Everything goes over nodes by loops, so types may stand inside one another as deep as a source is long.
#![tactic(auto)]

mod extents;
mod leaves;
mod nodes;
mod regions;
mod rivals;
mod table;
mod trees;

pub use leaves::leaf_of;
pub use nodes::{Node, NodeForm, Nodes, Span};
pub use table::table_fits;
