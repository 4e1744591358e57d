use journal::Digests;
use std::snapshot::Snapshot;

/// What tables were opened with, which never changes. What of it is not kept is remembered for contracts alone.
pub struct Opening<D, W> {
    pub digests: Digests,
    /// How long a lease lasts, in units of the clock.
    pub term: u64,
    pub work: Snapshot<W>,
    pub disk: Snapshot<D>,
}

impl<D, W> Drop for Opening<D, W> {
    fn drop(self) {
        let Opening {
            digests: _,
            term: _,
            work: _,
            disk: _,
        } = self;
    }
}
