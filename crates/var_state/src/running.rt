use crate::cluster::{Cluster, Kept};
use crate::patch::{Patch, Widening};
use crate::state::{State, copy_at, join_at};
use crate::trail::{Saved, Trail, exchange};
use c_values::Cmp;
use core_ir::Operand;
use intervals::Interval;
use std::alloc::Global;
use sv_base::NoMemory;

// How much was saved when a mark was opened, and whether the state was bottom. What was changed since then, but not after the
// time `joined`, has all that it had at the mark.
#[derive(Clone, Copy)]
struct Mark {
    at: usize,
    bottom: bool,
    opened: u64,
    joined: u64,
}

/// The state of an analysis that runs through a body, with a trail of what its clusters were at marks on the way. So it can go
/// back to a mark, and be joined with what it was there, at the cost of what was changed since. Marks are nested, and numbered
/// from 0; the newest one is the last that is open.
#[derive(Drop)]
pub struct Running {
    state: State,
    trail: Trail,
    marks: Vec<Mark>,
}

fn is_within_saved(clusters: &[Cluster], saved: &Saved) -> bool {
    match clusters.get(saved.cluster) {
        Some(cluster) => return cluster.is_within(&saved.value),
        None => return true,
    }
}

fn has_saved(clusters: &[Cluster], saved: &Saved) -> bool {
    match clusters.get(saved.cluster) {
        Some(cluster) => return saved.value.is_within(cluster),
        None => return true,
    }
}

fn is_saved(clusters: &[Cluster], saved: &Saved) -> bool {
    match clusters.get(saved.cluster) {
        Some(cluster) => return cluster.is_same(&saved.value),
        None => return true,
    }
}

impl Running {
    /// The state as it is, and no mark.
    pub fn new(alloc: Global, state: State) -> Result<Running, NoMemory> {
        let trail = Trail::new(alloc, state.clusters.len())?;
        Ok(Running {
            state,
            trail,
            marks: Vec::new(alloc),
        })
    }

    pub fn state(&self) -> &State {
        &self.state
    }

    pub fn set_bottom(&mut self) {
        self.state.set_bottom();
    }

    fn newest(&self) -> Option<Mark> {
        self.marks.last().copied()
    }

    fn save_cluster(&mut self, alloc: Global, k: usize) -> Result<(), NoMemory> {
        match self.newest() {
            Some(mark) => self.trail.save(alloc, &self.state.clusters, k, mark.at),
            None => Ok(()),
        }
    }

    fn save(&mut self, alloc: Global, r: u32) -> Result<(), NoMemory> {
        match self.state.cluster_of(r) {
            Some(k) => self.save_cluster(alloc, k),
            None => Ok(()),
        }
    }

    fn save_operand(&mut self, alloc: Global, o: Operand) -> Result<(), NoMemory> {
        match o {
            Operand::Reg(r) => self.save(alloc, r),
            Operand::Const(_) => Ok(()),
        }
    }

    /// As `set_interval` of the state.
    pub fn set_interval(
        &mut self,
        alloc: Global,
        to: u32,
        i: Option<Interval>,
    ) -> Result<(), NoMemory> {
        if self.state.bottom {
            return Ok(());
        }
        self.save(alloc, to)?;
        self.state.set_interval(to, i);
        Ok(())
    }

    /// As `set_sum` of the state.
    pub fn set_sum(&mut self, alloc: Global, to: u32, from: u32, c: i128) -> Result<(), NoMemory> {
        if self.state.bottom {
            return Ok(());
        }
        self.save(alloc, to)?;
        self.state.set_sum(to, from, c);
        Ok(())
    }

    /// As `assume` of the state.
    pub fn assume(
        &mut self,
        alloc: Global,
        c: Cmp,
        a: Operand,
        b: Operand,
    ) -> Result<(), NoMemory> {
        if self.state.bottom {
            return Ok(());
        }
        self.save_operand(alloc, a)?;
        self.save_operand(alloc, b)?;
        self.state.assume(c, a, b);
        Ok(())
    }

    /// As `add_difference` of the state.
    pub fn add_difference(
        &mut self,
        alloc: Global,
        a: u32,
        b: u32,
        c: i128,
    ) -> Result<(), NoMemory> {
        if self.state.bottom {
            return Ok(());
        }
        self.save(alloc, a)?;
        self.state.add_difference(a, b, c);
        Ok(())
    }

    /// All registers get their ranges.
    pub fn set_top(&mut self, alloc: Global) -> Result<(), NoMemory> {
        for k in 0..self.state.clusters.len() {
            self.save_cluster(alloc, k)?;
            self.state.set_top_of(k);
        }
        self.state.bottom = false;
        Ok(())
    }

    /// Opens a mark, and gives its number.
    pub fn mark(&mut self) -> Result<usize, NoMemory> {
        let number = self.marks.len();
        let now = self.trail.recent.now();
        self.marks.push(Mark {
            at: self.trail.len(),
            bottom: self.state.bottom,
            opened: now,
            joined: now,
        })?;
        Ok(number)
    }

    /// Closes the newest mark. The state stays as it is.
    pub fn release(&mut self) {
        if let Some(mark) = self.marks.pop() {
            let outer = self.newest().map(|outer| outer.at);
            self.trail.release(mark.at, outer);
            if outer == Some(mark.at) {
                self.note_joined(mark.joined);
            }
        }
    }

    // What the newest mark says of a time holds of this one.
    fn note_joined(&mut self, time: u64) {
        if let Some(mark) = self.marks.last_mut() {
            mark.joined = time;
        }
    }

    /// The state as it was at the newest mark, which stays open.
    pub fn undo(&mut self) {
        if let Some(mark) = self.newest() {
            for _ in mark.at..self.trail.len() {
                let _ = self.trail.take_back(&mut self.state.clusters);
            }
            self.state.bottom = mark.bottom;
        }
    }

    /// The state as it was at the newest mark, which stays open. Gives what is undone.
    pub fn take_back(&mut self, alloc: Global) -> Result<Patch, NoMemory> {
        let mut patch = Patch::bottom(alloc);
        if self.state.bottom {
            self.undo();
            return Ok(patch);
        }
        if let Some(mark) = self.newest() {
            for _ in mark.at..self.trail.len() {
                if let Some(change) = self.trail.take_back(&mut self.state.clusters) {
                    patch.clusters.push(change)?;
                }
            }
            self.state.bottom = mark.bottom;
        }
        patch.bottom = false;
        Ok(patch)
    }

    /// Joins the state with what the patch makes of the state at the newest mark.
    pub fn join(&mut self, alloc: Global, patch: Patch) -> Result<(), NoMemory> {
        if patch.bottom {
            return Ok(());
        }
        if self.state.bottom {
            self.undo();
            return self.replace(alloc, patch);
        }
        self.meet_all(&patch);
        self.join_unmet();
        let now = self.trail.recent.now();
        self.note_joined(now);
        for (k, cluster) in &patch.clusters {
            self.save_cluster(alloc, *k)?;
            join_at(&mut self.state.clusters, *k, cluster);
        }
        Ok(())
    }

    // Begins a list with the clusters of the patch.
    fn meet_all(&mut self, patch: &Patch) {
        self.trail.start_list();
        for (k, _) in &patch.clusters {
            self.trail.meet(*k);
        }
    }

    // Joins each cluster that was changed since the newest mark, and that the list has not, with what it was there.
    fn join_unmet(&mut self) {
        if let Some(mark) = self.newest() {
            let mut next = self.trail.recent.latest_after(mark.joined);
            for _ in 0..self.state.clusters.len() {
                let Some(k) = next else {
                    break;
                };
                next = self.trail.recent.older_after(k, mark.joined);
                self.join_unmet_cluster(k, mark.at);
            }
        }
    }

    fn join_unmet_cluster(&mut self, k: usize, mark: usize) {
        if self.trail.was_met(k) {
            return;
        }
        if let Some(saved) = self.trail.saved_since(k, mark) {
            join_at(&mut self.state.clusters, k, &saved.value);
            self.trail.recent.change(k);
        }
    }

    // The clusters of the patch in place of the state's.
    fn replace(&mut self, alloc: Global, patch: Patch) -> Result<(), NoMemory> {
        let Patch { clusters, .. } = patch;
        for (k, cluster) in clusters {
            self.save_cluster(alloc, k)?;
            let _ = exchange(&mut self.state.clusters, k, cluster);
        }
        self.state.bottom = false;
        Ok(())
    }

    /// Joins the state with what it was at a mark.
    pub fn join_mark(&mut self, alloc: Global, mark: usize) -> Result<(), NoMemory> {
        let Some(mark) = self.marks.get(mark).copied() else {
            return Ok(());
        };
        if mark.bottom {
            return Ok(());
        }
        for at in mark.at..self.trail.len() {
            self.join_saved(alloc, at, mark.at)?;
        }
        self.state.bottom = false;
        Ok(())
    }

    fn join_saved(&mut self, alloc: Global, at: usize, mark: usize) -> Result<(), NoMemory> {
        let bottom = self.state.bottom;
        let k = match self.trail.first_since(at, mark) {
            Some(saved) => {
                if bottom && is_saved(&self.state.clusters, saved) {
                    return Ok(());
                }
                if !bottom && has_saved(&self.state.clusters, saved) {
                    return Ok(());
                }
                saved.cluster
            }
            None => return Ok(()),
        };
        self.save_cluster(alloc, k)?;
        if let Some(saved) = self.trail.saved.get(at) {
            if bottom {
                copy_at(&mut self.state.clusters, k, &saved.value);
            } else {
                join_at(&mut self.state.clusters, k, &saved.value);
            }
        }
        Ok(())
    }

    /// The state leaves for another place, whose state is that at the mark with the patch: the patch is joined with the state,
    /// which becomes bottom.
    pub fn leave(&mut self, alloc: Global, mark: usize, exits: &mut Patch) -> Result<(), NoMemory> {
        if self.state.bottom {
            return Ok(());
        }
        if let Some(mark) = self.marks.get(mark).copied() {
            let since = mark.opened.max(exits.seen);
            let mut next = self.trail.recent.latest_after(since);
            for _ in 0..self.state.clusters.len() {
                let Some(k) = next else {
                    break;
                };
                self.add_exit(alloc, k, mark.at, exits)?;
                next = self.trail.recent.older_after(k, since);
            }
            exits.seen = self.trail.recent.now();
            exits.bottom = false;
        }
        self.state.set_bottom();
        Ok(())
    }

    // A cluster that was changed, or put back, since the mark and the last exit. One that the exits before did not change is joined
    // with what it was at the mark.
    fn add_exit(
        &mut self,
        alloc: Global,
        k: usize,
        mark: usize,
        exits: &mut Patch,
    ) -> Result<(), NoMemory> {
        let Some(cluster) = self.state.clusters.get(k) else {
            return Ok(());
        };
        if exits.join_cluster(k, cluster) {
            return Ok(());
        }
        let Some(saved) = self.trail.saved_since(k, mark) else {
            return Ok(());
        };
        let mut value = cluster.copy_of(alloc)?;
        if !exits.bottom {
            value.join(&saved.value);
        }
        exits.add(k, value)
    }

    /// Whether the state lies within the state at the newest mark.
    pub fn is_within_mark(&self) -> bool {
        if self.state.bottom {
            return true;
        }
        let Some(mark) = self.newest() else {
            return true;
        };
        if mark.bottom {
            return false;
        }
        for at in mark.at..self.trail.len() {
            if let Some(saved) = self.trail.saved.get(at) {
                if !is_within_saved(&self.state.clusters, saved) {
                    return false;
                }
            }
        }
        true
    }

    /// The state at the newest mark, widened by the state.
    pub fn widen_mark(&mut self, alloc: Global, widening: &mut Widening) -> Result<(), NoMemory> {
        let Some(mark) = self.newest() else {
            return Ok(());
        };
        if mark.bottom {
            return Ok(());
        }
        if self.state.bottom {
            self.undo();
            return Ok(());
        }
        for at in mark.at..self.trail.len() {
            self.widen_saved(alloc, at, widening)?;
        }
        Ok(())
    }

    fn widen_saved(
        &mut self,
        alloc: Global,
        at: usize,
        widening: &mut Widening,
    ) -> Result<(), NoMemory> {
        let Some(saved) = self.trail.saved.get(at) else {
            return Ok(());
        };
        let k = saved.cluster;
        if !widening.kept.contains_key(&k) {
            let kept = Kept::from_cluster(alloc, &saved.value)?;
            widening.kept.insert(k, kept)?;
        }
        if let Some(kept) = widening.kept.get_mut(&k) {
            self.trail.recent.change(k);
            self.state.widen_cluster(k, kept);
        }
        Ok(())
    }

    /// What some clusters are.
    pub fn copy_clusters(&self, alloc: Global, clusters: &[usize]) -> Result<Patch, NoMemory> {
        let mut patch = Patch::bottom(alloc);
        patch.bottom = self.state.bottom;
        for k in clusters {
            if let Some(cluster) = self.state.clusters.get(*k) {
                patch.clusters.push((*k, cluster.copy_of(alloc)?))?;
            }
        }
        Ok(patch)
    }

    /// Whether the clusters of the patch are as it says; of two bottoms true.
    pub fn is_at(&self, patch: &Patch) -> bool {
        if self.state.bottom || patch.bottom {
            return self.state.bottom && patch.bottom;
        }
        for (k, cluster) in &patch.clusters {
            match self.state.clusters.get(*k) {
                Some(now) => {
                    if !now.is_same(cluster) {
                        return false;
                    }
                }
                None => return false,
            }
        }
        true
    }

    /// The state with the clusters of the patch.
    pub fn put(&mut self, alloc: Global, patch: &Patch) -> Result<(), NoMemory> {
        if patch.bottom {
            self.state.set_bottom();
            return Ok(());
        }
        for (k, cluster) in &patch.clusters {
            self.save_cluster(alloc, *k)?;
            copy_at(&mut self.state.clusters, *k, cluster);
        }
        self.state.bottom = false;
        Ok(())
    }
}
