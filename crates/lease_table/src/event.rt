/// What changed the machine: a list of these leads from the first round to where it stands.
#[derive(Clone, Copy, Debug, PartialEq, Eq)]
pub enum Event {
    /// An artifact was kept from before.
    Kept { task: u32 },
    /// The next ticket leased the task, up to that time.
    Claimed { task: u32, until: u64 },
    Published { round: u32, task: u32, ticket: u64 },
    Abandoned { task: u32 },
    /// Each lease that had run out at that time was freed.
    Expired { now: u64 },
    /// The next round began, with so many tasks.
    Advanced { tasks: u32 },
    Ended,
}
