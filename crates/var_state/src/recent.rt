// In which order clusters were changed.

use std::alloc::Global;
use sv_base::NoMemory;

// When a cluster was changed last, 0 where it never was, and those that were changed next before and after that.
#[derive(Clone, Copy)]
struct Change {
    time: u64,
    older: Option<usize>,
    newer: Option<usize>,
}

/// Clusters by their last changes, the latest first. Each change has its time, from 1 on.
#[derive(Drop)]
pub(crate) struct Recent {
    changes: Vec<Change>,
    latest: Option<usize>,
    now: u64,
}

fn set_older(changes: &mut Vec<Change>, k: Option<usize>, older: Option<usize>) {
    if let Some(k) = k {
        if let Some(change) = changes.get_mut(k) {
            change.older = older;
        }
    }
}

fn set_newer(changes: &mut Vec<Change>, k: Option<usize>, newer: Option<usize>) {
    if let Some(k) = k {
        if let Some(change) = changes.get_mut(k) {
            change.newer = newer;
        }
    }
}

impl Recent {
    /// No cluster was changed.
    pub(crate) fn new(alloc: Global, clusters: usize) -> Result<Recent, NoMemory> {
        let never = Change {
            time: 0,
            older: None,
            newer: None,
        };
        Ok(Recent {
            changes: vec![in alloc; never; clusters]?,
            latest: None,
            now: 0,
        })
    }

    /// The time of the last change.
    pub(crate) fn now(&self) -> u64 {
        self.now
    }

    // Takes a cluster out of the order.
    fn remove(&mut self, k: usize, change: Change) {
        set_newer(&mut self.changes, change.older, change.newer);
        set_older(&mut self.changes, change.newer, change.older);
        if self.latest == Some(k) {
            self.latest = change.older;
        }
    }

    // Puts a cluster before all others.
    fn put(&mut self, k: usize) {
        set_newer(&mut self.changes, self.latest, Some(k));
        if let Some(place) = self.changes.get_mut(k) {
            *place = Change {
                time: self.now,
                older: self.latest,
                newer: None,
            };
        }
        self.latest = Some(k);
    }

    /// A cluster is changed.
    pub(crate) fn change(&mut self, k: usize) {
        if let Some(change) = self.changes.get(k).copied() {
            self.now = self.now.saturating_add(1);
            self.remove(k, change);
            self.put(k);
        }
    }

    // The cluster, where it was changed after a time.
    fn if_after(&self, k: Option<usize>, time: u64) -> Option<usize> {
        let k = k?;
        if time < self.changes.get(k)?.time {
            return Some(k);
        }
        None
    }

    /// The cluster that was changed last, where that was after a time.
    pub(crate) fn latest_after(&self, time: u64) -> Option<usize> {
        self.if_after(self.latest, time)
    }

    /// The cluster that was changed next before another, where that was after a time.
    pub(crate) fn older_after(&self, k: usize, time: u64) -> Option<usize> {
        self.if_after(self.changes.get(k)?.older, time)
    }
}
