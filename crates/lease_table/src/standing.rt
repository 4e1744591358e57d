/// Where a task of the current round stands. A lease runs out at `until`, in units of the caller's clock.
#[derive(Clone, Copy, Debug, PartialEq, Eq)]
pub enum Standing {
    Free,
    Leased { ticket: u64, until: u64 },
    Done { ticket: u64 },
}

/// What a claim gives.
#[derive(Clone, Copy, Debug, PartialEq, Eq)]
pub enum Claimed {
    /// The task is leased to the caller, who publishes or abandons it by this ticket.
    Work { task: u32, ticket: u64 },
    /// Each task is done or leased, and one is not done.
    Wait,
    /// Each task of the round is done.
    RoundDone,
    /// The machine was ended.
    Finished,
}

/// What became of a publication.
#[derive(Clone, Copy, Debug, PartialEq, Eq)]
pub enum Published {
    Stored,
    /// The lease is not the caller's: the machine's round, and where the task of the round named stands.
    Lost {
        round: u32,
        standing: Option<Standing>,
    },
}

/// What became of a lease that was given back.
#[derive(Clone, Copy, Debug, PartialEq, Eq)]
pub enum Abandoned {
    Freed,
    /// The lease is not the caller's: the machine's round, and where the task of the round named stands.
    Lost {
        round: u32,
        standing: Option<Standing>,
    },
}
