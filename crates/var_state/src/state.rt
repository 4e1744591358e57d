ghost use Rattle.std.specs.Prelude.{IfSome};
ghost use Rattle.intervals.specs.Intervals.{IsNear};

use crate::cluster::{Cluster, Kept};
use crate::frame::{Frame, Layout, Place, copies, kept_copies, kept_of};
use crate::range::Range;
use intervals::Interval;
use std::alloc::Global;
use std::rc::Rc;
use sv_base::NoMemory;

/// What is known of a function's registers at a place of its body: that the place is not reached (the state is bottom), or
/// bounds of each register and of the differences of registers of one cluster. A register that is not in the layout may hold
/// any number, and setting it changes nothing.
#[derive(Drop)]
pub struct State {
    pub(crate) frame: Rc<Frame>,
    pub(crate) bottom: bool,
    pub(crate) clusters: Vec<Cluster>,
    /// The clusters as they were widened, while `widened` is true.
    kept: Vec<Kept>,
    widened: bool,
}

pub(crate) fn tighten_at(
    clusters: &mut Vec<Cluster>,
    k: usize,
    from: usize,
    to: usize,
    c: i128,
) -> bool {
    match clusters.get_mut(k) {
        Some(cluster) => return cluster.tighten(from, to, c),
        None => return true,
    }
}

fn place_at(clusters: &mut Vec<Cluster>, place: Place, range: Range) {
    if let Some(cluster) = clusters.get_mut(place.cluster) {
        cluster.place(place.position, range);
    }
}

fn sum_at(clusters: &mut Vec<Cluster>, to: Place, from: usize, c: i128) -> bool {
    match clusters.get_mut(to.cluster) {
        Some(cluster) => return cluster.set_sum(to.position, from, c, to.range),
        None => return true,
    }
}

pub(crate) fn join_at(clusters: &mut Vec<Cluster>, k: usize, other: &Cluster) {
    if let Some(cluster) = clusters.get_mut(k) {
        cluster.join(other);
    }
}

pub(crate) fn copy_at(clusters: &mut Vec<Cluster>, k: usize, other: &Cluster) {
    if let Some(cluster) = clusters.get_mut(k) {
        cluster.copy_from(other);
    }
}

fn close_at(clusters: &mut Vec<Cluster>, k: usize, kept: &Kept) {
    if let Some(cluster) = clusters.get_mut(k) {
        cluster.close(kept);
    }
}

fn set_kept(kept: &mut Vec<Kept>, clusters: &[Cluster]) {
    for (k, cluster) in clusters.iter().enumerate() {
        if let Some(one) = kept.get_mut(k) {
            one.set(cluster);
        }
    }
}

fn widen_kept(kept: &mut Vec<Kept>, frame: &Frame, next: &[Cluster]) {
    for (k, cluster) in next.iter().enumerate() {
        if let (Some(one), Some(top)) = (kept.get_mut(k), frame.top(k)) {
            one.widen(cluster, top);
        }
    }
}

impl State {
    /// All registers in their ranges.
    pub fn top(alloc: Global, layout: &Layout) -> Result<State, NoMemory> {
        let frame = Frame::from_layout(alloc, layout)?;
        let clusters = frame.clusters(alloc)?;
        let kept = kept_of(alloc, &clusters)?;
        let frame = Rc::new(alloc, frame)?;
        Ok(State {
            frame,
            bottom: false,
            clusters,
            kept,
            widened: false,
        })
    }

    pub fn copy_of(&self, alloc: Global) -> Result<State, NoMemory> {
        let frame = self.frame.clone()?;
        let clusters = copies(alloc, &self.clusters)?;
        let kept = kept_copies(alloc, &self.kept)?;
        Ok(State {
            frame,
            bottom: self.bottom,
            clusters,
            kept,
            widened: self.widened,
        })
    }

    pub fn is_bottom(&self) -> bool {
        self.bottom
    }

    pub fn set_bottom(&mut self) {
        self.bottom = true;
        self.widened = false;
    }

    /// The range of a register.
    pub fn range(&self, r: u32) -> Interval
        ensures near { IsNear result }
    {
        self.frame.place(r).range.interval()
    }

    /// The position of a register's cluster in the layout.
    pub fn cluster_of(&self, r: u32) -> Option<usize> {
        let cluster = self.frame.place(r).cluster;
        if self.clusters.len() <= cluster {
            return None;
        }
        Some(cluster)
    }

    pub(crate) fn numbers(&self, place: Place) -> Range {
        match self.clusters.get(place.cluster) {
            Some(cluster) => return cluster.bounds(place.position),
            None => return place.range,
        }
    }

    /// The least and the greatest number of a register; none where the state is bottom.
    pub fn bounds(&self, r: u32) -> Option<Interval>
        ensures near { IfSome result IsNear }
    {
        if self.bottom {
            return None;
        }
        Some(self.numbers(self.frame.place(r)).interval())
    }

    /// The bound of `a - b`; none where the state is bottom, or the two stand in different clusters.
    pub fn difference(&self, a: u32, b: u32) -> Option<i128> {
        let to = self.frame.place(a);
        let from = self.frame.place(b);
        if self.bottom || to.cluster != from.cluster {
            return None;
        }
        match self.clusters.get(to.cluster) {
            Some(cluster) => return Some(cluster.difference(from.position, to.position)),
            None => return None,
        }
    }

    /// Forgets `to`, and bounds it by the part of the interval that lies in its range; where there is none, the state becomes
    /// bottom.
    pub fn set_interval(&mut self, to: u32, i: Option<Interval>) {
        if self.bottom {
            return;
        }
        self.widened = false;
        let place = self.frame.place(to);
        match i {
            Some(i) => self.set_range(place, place.range.part(i.low, i.high)),
            None => self.bottom = true,
        }
    }

    fn set_range(&mut self, place: Place, range: Option<Range>) {
        match range {
            Some(range) => place_at(&mut self.clusters, place, range),
            None => self.bottom = true,
        }
    }

    /// The register `to` becomes `from + c`, cut to its range; where that leaves nothing, the state becomes bottom.
    pub fn set_sum(&mut self, to: u32, from: u32, c: i128) {
        if self.bottom {
            return;
        }
        self.widened = false;
        let to = self.frame.place(to);
        let from = self.frame.place(from);
        if to.cluster == from.cluster {
            self.bottom = !sum_at(&mut self.clusters, to, from.position, c);
            return;
        }
        let range = self.numbers(from).moved(c, to.range);
        self.set_range(to, range);
    }

    /// Bounds `a - b` by c, where the two stand in one cluster.
    pub fn add_difference(&mut self, a: u32, b: u32, c: i128) {
        if self.bottom {
            return;
        }
        self.widened = false;
        let to = self.frame.place(a);
        let from = self.frame.place(b);
        if to.cluster == from.cluster {
            self.tighten(to.cluster, from.position, to.position, c);
        }
    }

    /// Another change drops the bounds as widened.
    pub(crate) fn drop_widened(&mut self) {
        self.widened = false;
    }

    pub(crate) fn tighten(&mut self, cluster: usize, from: usize, to: usize, c: i128) {
        self.bottom = !tighten_at(&mut self.clusters, cluster, from, to, c);
    }

    /// The least state above both.
    pub fn join(&mut self, other: &State) {
        if other.bottom {
            return;
        }
        self.widened = false;
        if self.bottom {
            self.copy_clusters(other);
            return;
        }
        for (k, cluster) in other.clusters.iter().enumerate() {
            join_at(&mut self.clusters, k, cluster);
        }
    }

    fn copy_clusters(&mut self, other: &State) {
        self.bottom = false;
        for (k, cluster) in other.clusters.iter().enumerate() {
            copy_at(&mut self.clusters, k, cluster);
        }
    }

    /// A state above both that grows but so often: a bound is kept where that of `other` is not greater, and is that of the
    /// registers' ranges otherwise. The bounds as widened are kept beside their closed form for the next widening, until
    /// another change.
    pub fn widen(&mut self, other: &State) {
        if other.bottom {
            return;
        }
        if self.bottom {
            self.widened = false;
            self.copy_clusters(other);
            return;
        }
        if !self.widened {
            set_kept(&mut self.kept, &self.clusters);
        }
        self.widened = true;
        widen_kept(&mut self.kept, &self.frame, &other.clusters);
        for (k, kept) in self.kept.iter().enumerate() {
            close_at(&mut self.clusters, k, kept);
        }
    }

    /// A cluster's registers get their ranges.
    pub(crate) fn set_top_of(&mut self, k: usize) {
        if let Some(top) = self.frame.top(k) {
            copy_at(&mut self.clusters, k, top);
        }
    }

    /// A cluster becomes what `kept` says, widened by it.
    pub(crate) fn widen_cluster(&mut self, k: usize, kept: &mut Kept) {
        if let (Some(next), Some(top)) = (self.clusters.get(k), self.frame.top(k)) {
            kept.widen(next, top);
        }
        close_at(&mut self.clusters, k, kept);
    }

    /// Whether each bound is at most that of `other`.
    pub fn within(&self, other: &State) -> bool {
        if self.bottom {
            return true;
        }
        if other.bottom {
            return false;
        }
        for (cluster, more) in self.clusters.iter().zip(&other.clusters) {
            if !cluster.is_within(more) {
                return false;
            }
        }
        true
    }
}
