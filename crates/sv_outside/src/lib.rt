//! What surveyor asks of the outside, as traits: files to load, places to put text, disks, a clock and a gate. Files and
//! places come in two forms in memory, one of which never fails.
#![tactic(auto)]

mod clock;
mod disk;
mod disks;
mod files;
mod gate;
mod memory_sink;
mod memory_sources;
mod sink;
mod sources;
mod sure_sink;
mod sure_sources;

pub use clock::Clock;
pub use disk::Disk;
pub use disks::Disks;
pub use gate::Gate;
pub use memory_sink::MemorySink;
pub use memory_sources::MemorySources;
pub use sink::{Put, Sink};
pub use sources::{Loaded, Sources};
pub use sure_sink::SureSink;
pub use sure_sources::SureSources;
