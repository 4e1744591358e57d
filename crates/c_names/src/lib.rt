//! What checking goes over: the names in scope, the tags, what type words name, the names with linkage, and where an
//! initialiser stands in the object that it gives values to. Nothing here knows the syntax trees.
#![tactic(auto)]

mod checker;
mod linkage;
mod meaning;
mod objects;
mod overrides;
mod pool;
mod visible;
mod walk;
mod words;

pub use checker::{Checker, KeptScope, Opened, Slot};
pub use linkage::{Entity, FileLinkage, FirstTwo, Linkage, LinkedDeclaration, LinkedWords};
pub use meaning::{Meaning, Tag};
pub use objects::char_value;
pub use overrides::Overrides;
pub use pool::Pool;
pub use visible::{Declared, Visible};
pub use walk::{Walk, is_union, part_type};
pub use words::{Base, TypeWords};
