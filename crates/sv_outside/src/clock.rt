/// A clock, which may answer any number at any time.
pub trait Clock {
    fn now(&self) -> u64;
}
