use crate::cluster::{Cluster, Kept};
use crate::range::Range;
use std::alloc::Global;
use sv_base::NoMemory;

/// The registers of a function by clusters, and the range of each register, the low end first. A register stands in one
/// cluster; a cluster has 1 to 16 registers.
#[derive(Drop)]
pub struct Layout {
    pub clusters: Vec<Vec<u32>>,
    pub ranges: Vec<(i128, i128)>,
}

/// Where a register stands: the number of its cluster, and its position there, from 1.
#[derive(Clone, Copy)]
pub(crate) struct Place {
    pub(crate) cluster: usize,
    pub(crate) position: usize,
    pub(crate) range: Range,
}

/// What the states of a function have in common: the places of the registers, and by cluster the registers in their ranges.
#[derive(Drop)]
pub(crate) struct Frame {
    places: Vec<Place>,
    tops: Vec<Cluster>,
}

impl Place {
    // Of a register that stands in no cluster.
    fn nowhere(range: Range) -> Place {
        Place {
            cluster: usize::MAX,
            position: 0,
            range,
        }
    }
}

fn places_of(alloc: Global, ranges: &[(i128, i128)]) -> Result<Vec<Place>, NoMemory> {
    let mut places = Vec::with_capacity(alloc, ranges.len())?;
    for (low, high) in ranges {
        places.push(Place::nowhere(Range::from_ends(*low, *high)))?;
    }
    Ok(places)
}

// Notes the places of a cluster's registers, and gives their ranges.
fn settle(
    alloc: Global,
    places: &mut Vec<Place>,
    cluster: usize,
    registers: &[u32],
) -> Result<Vec<Range>, NoMemory> {
    let mut ranges = Vec::with_capacity(alloc, registers.len())?;
    for (i, r) in registers.iter().enumerate() {
        if let Some(place) = places.get_mut(*r as usize) {
            place.cluster = cluster;
            place.position = i.saturating_add(1);
            ranges.push(place.range)?;
        } else {
            ranges.push(Range::zero())?;
        }
    }
    Ok(ranges)
}

impl Frame {
    pub(crate) fn from_layout(alloc: Global, layout: &Layout) -> Result<Frame, NoMemory> {
        let mut places = places_of(alloc, &layout.ranges)?;
        let mut tops = Vec::with_capacity(alloc, layout.clusters.len())?;
        for (k, registers) in layout.clusters.iter().enumerate() {
            let ranges = settle(alloc, &mut places, k, registers)?;
            tops.push(Cluster::from_ranges(alloc, &ranges)?)?;
        }
        Ok(Frame { places, tops })
    }

    /// The place of a register; of one that is not there, a place in no cluster.
    pub(crate) fn place(&self, r: u32) -> Place {
        match self.places.get(r as usize) {
            Some(place) => return *place,
            None => return Place::nowhere(Range::all()),
        }
    }

    /// The registers of a cluster in their ranges.
    pub(crate) fn top(&self, cluster: usize) -> Option<&Cluster> {
        self.tops.get(cluster)
    }

    /// All clusters, their registers in their ranges.
    pub(crate) fn clusters(&self, alloc: Global) -> Result<Vec<Cluster>, NoMemory> {
        copies(alloc, &self.tops)
    }
}

pub(crate) fn copies(alloc: Global, clusters: &[Cluster]) -> Result<Vec<Cluster>, NoMemory> {
    let mut list = Vec::with_capacity(alloc, clusters.len())?;
    for cluster in clusters {
        list.push(cluster.copy_of(alloc)?)?;
    }
    Ok(list)
}

pub(crate) fn kept_of(alloc: Global, clusters: &[Cluster]) -> Result<Vec<Kept>, NoMemory> {
    let mut list = Vec::with_capacity(alloc, clusters.len())?;
    for cluster in clusters {
        list.push(Kept::from_cluster(alloc, cluster)?)?;
    }
    Ok(list)
}

pub(crate) fn kept_copies(alloc: Global, kept: &[Kept]) -> Result<Vec<Kept>, NoMemory> {
    let mut list = Vec::with_capacity(alloc, kept.len())?;
    for one in kept {
        list.push(one.copy_of(alloc)?)?;
    }
    Ok(list)
}
