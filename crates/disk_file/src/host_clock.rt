use std::time::Instant;
use sv_outside::Clock;

/// A clock of the system that is never set back: milliseconds since it was made, and 0 where the system tells no time.
#[derive(Drop)]
pub struct HostClock<'a> {
    rt: &'a HostRuntime,
    start: Option<Instant>,
}

impl<'a> HostClock<'a> {
    pub fn new(rt: &'a HostRuntime) -> HostClock<'a> {
        HostClock {
            rt,
            start: Instant::now(rt).ok(),
        }
    }
}

impl<'a> Clock for HostClock<'a> {
    fn now(&self) -> u64 {
        let Some(start) = self.start else {
            return 0;
        };
        match Instant::now(self.rt) {
            Ok(time) => u64::try_from(time.duration_since(start).as_millis()).unwrap_or(u64::MAX),
            Err(_) => 0,
        }
    }
}
