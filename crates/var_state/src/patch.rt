use crate::cluster::{Cluster, Kept};
use std::alloc::Global;
use std::collections::BTreeMap;
use sv_base::NoMemory;

/// What some clusters of a state are, or that the state is bottom.
#[derive(Drop)]
pub struct Patch {
    pub(crate) bottom: bool,
    pub(crate) clusters: Vec<(usize, Cluster)>,
    /// Of a patch of exits, by cluster its place in the list.
    places: BTreeMap<usize, usize>,
    /// Of a patch of exits, the time of the last change before the last exit.
    pub(crate) seen: u64,
}

impl Patch {
    /// The state is bottom.
    pub fn bottom(alloc: Global) -> Patch {
        Patch {
            bottom: true,
            clusters: Vec::new(alloc),
            places: BTreeMap::new(alloc),
            seen: 0,
        }
    }

    pub fn is_bottom(&self) -> bool {
        self.bottom
    }

    /// A cluster that an exit changes and that the patch does not have yet.
    pub(crate) fn add(&mut self, k: usize, cluster: Cluster) -> Result<(), NoMemory> {
        let place = self.clusters.len();
        self.places.insert(k, place)?;
        self.clusters.push((k, cluster))?;
        Ok(())
    }

    /// Joins a cluster of the patch with another; false where the patch does not have it.
    pub(crate) fn join_cluster(&mut self, k: usize, more: &Cluster) -> bool {
        let place = match self.places.get(&k) {
            Some(place) => *place,
            None => return false,
        };
        if let Some((_, cluster)) = self.clusters.get_mut(place) {
            cluster.join(more);
        }
        true
    }
}

/// By cluster, the bounds as they were widened at the head of a loop.
#[derive(Drop)]
pub struct Widening {
    pub(crate) kept: BTreeMap<usize, Kept>,
}

impl Widening {
    /// Nothing was widened yet.
    pub fn new(alloc: Global) -> Widening {
        Widening {
            kept: BTreeMap::new(alloc),
        }
    }
}
