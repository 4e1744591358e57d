use crate::trouble::Trouble;
use std::time::Instant;

const MICROSECONDS: u128 = 1_000_000;

/// Seconds, and the microseconds behind them.
#[derive(Clone, Copy)]
pub(crate) struct Taken {
    pub(crate) seconds: u64,
    pub(crate) behind: u64,
}

/// The time since a moment.
pub(crate) fn since(rt: &HostRuntime, start: Instant) -> Result<Taken, Trouble> {
    let taken = start.elapsed(rt)?.as_micros();
    Ok(Taken {
        seconds: (taken / MICROSECONDS) as u64,
        behind: (taken % MICROSECONDS) as u64,
    })
}
