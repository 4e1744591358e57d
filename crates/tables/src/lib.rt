//! Work in rounds of tasks: who may compute a task, the shelf of what was computed, and tables that keep it in a journal.
#![tactic(auto)]

mod batch;
mod laws;
mod mark;
mod opening;
mod publish;
mod reopening;
mod rounds;
mod shelf;
mod stop;
mod tables;
mod turn;
mod work;

pub use batch::Publication;
pub use laws::a_record_stands_for_its_artifact;
pub use opening::Opening;
pub use publish::Publish;
pub use shelf::Shelf;
pub use stop::Stop;
pub use tables::Tables;
pub use turn::Turn;
pub use work::{Next, Work};
