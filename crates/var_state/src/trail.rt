// What clusters were before they were changed.

use crate::cluster::Cluster;
use crate::recent::Recent;
use std::alloc::Global;
use std::mem;
use sv_base::NoMemory;

/// A cluster as it was at a mark, and where the trail has it from before that mark, if it does.
#[derive(Drop)]
pub(crate) struct Saved {
    pub(crate) cluster: usize,
    pub(crate) value: Cluster,
    pub(crate) previous: Option<usize>,
}

/// Saved clusters in the order in which they were saved, and by cluster the last of them.
#[derive(Drop)]
pub(crate) struct Trail {
    pub(crate) saved: Vec<Saved>,
    pub(crate) recent: Recent,
    last: Vec<Option<usize>>,
    /// By cluster, the last count of those that went through a list and met it.
    stamps: Vec<u64>,
    stamp: u64,
}

fn is_since(at: Option<usize>, mark: usize) -> bool {
    match at {
        Some(at) => return mark <= at,
        None => return false,
    }
}

fn note(last: &mut Vec<Option<usize>>, cluster: usize, at: Option<usize>) {
    if let Some(place) = last.get_mut(cluster) {
        *place = at;
    }
}

fn swap(saved: &mut Vec<Saved>, a: usize, b: usize) {
    if a < saved.len() && b < saved.len() {
        saved.swap(a, b);
    }
}

/// Puts a cluster in the place of another, and gives that back.
pub(crate) fn exchange(clusters: &mut Vec<Cluster>, k: usize, value: Cluster) -> Cluster {
    match clusters.get_mut(k) {
        Some(place) => return mem::replace(place, value),
        None => return value,
    }
}

impl Trail {
    pub(crate) fn new(alloc: Global, clusters: usize) -> Result<Trail, NoMemory> {
        let last = vec![in alloc; None; clusters]?;
        let stamps = vec![in alloc; 0; clusters]?;
        Ok(Trail {
            saved: Vec::new(alloc),
            recent: Recent::new(alloc, clusters)?,
            last,
            stamps,
            stamp: 0,
        })
    }

    pub(crate) fn len(&self) -> usize {
        self.saved.len()
    }

    fn last_of(&self, cluster: usize) -> Option<usize> {
        match self.last.get(cluster) {
            Some(at) => return *at,
            None => return None,
        }
    }

    /// Saves a cluster that is changed next, unless it was saved since the mark.
    pub(crate) fn save(
        &mut self,
        alloc: Global,
        clusters: &[Cluster],
        k: usize,
        mark: usize,
    ) -> Result<(), NoMemory> {
        self.recent.change(k);
        let previous = self.last_of(k);
        if is_since(previous, mark) {
            return Ok(());
        }
        if let Some(cluster) = clusters.get(k) {
            let value = cluster.copy_of(alloc)?;
            let at = self.saved.len();
            self.saved.push(Saved {
                cluster: k,
                value,
                previous,
            })?;
            note(&mut self.last, k, Some(at));
        }
        Ok(())
    }

    /// Takes what was saved last from the trail, and puts it in its place. Gives the number of the cluster, and what it was
    /// until now.
    pub(crate) fn take_back(&mut self, clusters: &mut Vec<Cluster>) -> Option<(usize, Cluster)> {
        match self.saved.pop() {
            Some(saved) => {
                let Saved {
                    cluster,
                    value,
                    previous,
                } = saved;
                note(&mut self.last, cluster, previous);
                self.recent.change(cluster);
                return Some((cluster, exchange(clusters, cluster, value)));
            }
            None => return None,
        }
    }

    /// Closes a mark: what was saved since then stays where it was not saved since the mark around it.
    pub(crate) fn release(&mut self, mark: usize, outer: Option<usize>) {
        if outer == Some(mark) {
            return;
        }
        let mut kept = mark;
        for at in mark..self.saved.len() {
            if self.settle(at, kept, outer) {
                kept = kept.saturating_add(1);
            }
        }
        self.saved.truncate(kept);
    }

    // Whether what was saved stays; it then goes to the place `to`.
    fn settle(&mut self, at: usize, to: usize, outer: Option<usize>) -> bool {
        let (cluster, previous) = match self.saved.get(at) {
            Some(saved) => (saved.cluster, saved.previous),
            None => return false,
        };
        let stays = match outer {
            Some(mark) => !is_since(previous, mark),
            None => false,
        };
        if stays {
            swap(&mut self.saved, to, at);
            note(&mut self.last, cluster, Some(to));
        } else {
            note(&mut self.last, cluster, previous);
        }
        stays
    }

    /// The cluster that was saved at a place, where it was not saved between that and the mark.
    pub(crate) fn first_since(&self, at: usize, mark: usize) -> Option<&Saved> {
        match self.saved.get(at) {
            Some(saved) => {
                if is_since(saved.previous, mark) {
                    return None;
                }
                return Some(saved);
            }
            None => return None,
        }
    }

    /// Begins to go through a list of clusters.
    pub(crate) fn start_list(&mut self) {
        self.stamp = self.stamp.wrapping_add(1);
    }

    /// The list has the cluster.
    pub(crate) fn meet(&mut self, cluster: usize) {
        if let Some(stamp) = self.stamps.get_mut(cluster) {
            *stamp = self.stamp;
        }
    }

    /// Whether the list has the cluster.
    pub(crate) fn was_met(&self, cluster: usize) -> bool {
        match self.stamps.get(cluster) {
            Some(stamp) => return *stamp == self.stamp,
            None => return false,
        }
    }

    // Where a cluster was saved first since the mark.
    fn first_place(&self, cluster: usize, mark: usize) -> Option<usize> {
        let mut found = None;
        let mut at = self.last_of(cluster);
        for _ in 0..self.saved.len() {
            match at {
                Some(place) if mark <= place => {
                    found = at;
                    at = self.saved.get(place)?.previous;
                }
                _ => break,
            }
        }
        found
    }

    /// What a cluster was at the mark, where it was saved since.
    pub(crate) fn saved_since(&self, cluster: usize, mark: usize) -> Option<&Saved> {
        self.saved.get(self.first_place(cluster, mark)?)
    }
}
