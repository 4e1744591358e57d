//! The objects of a typed program as trees with their indices erased, the classes of their regions and leaves, and what the
//! analysis asks of these classes. Everything goes over numbered nodes by loops, so types may stand inside one another as deep as a
//! source is long.
#![tactic(auto)]

mod nodes;
mod numbers;
mod regions;
mod rivals;
mod shapes;

pub use nodes::{Node, NodeForm, Objects, Span};
pub use numbers::{FirstUse, Marks, Numbers, PartKey};
pub use regions::region_classes;
pub use rivals::rival_classes;
pub use shapes::shapes_of;
