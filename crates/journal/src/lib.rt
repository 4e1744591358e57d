//! A journal: records that outlive a crash at any moment, each behind a gate byte that is opened once it is on the disk.
#![tactic(auto)]

mod append;
mod bytes;
mod cut;
mod digests;
mod ending;
mod fault;
mod first_bodies;
mod fresh;
mod header;
mod journal;
mod kept;
mod laws;
mod looking;
mod opening;
mod piece;
mod reader;
mod reading;
mod record;
mod scan;
mod synced;
mod version;

pub use digests::Digests;
pub use fault::OpenFault;
pub use journal::{Journal, NoRoom};
pub use kept::Kept;
pub use laws::{one_beginning, one_list};
pub use looking::look;
pub use piece::Piece;
pub use reader::Reading;
pub use record::LIMIT;
