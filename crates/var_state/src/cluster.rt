ghost use Rattle.std.specs.Prelude.{◌≡◌, ℕ, ◌≤◌, neg_ℤ};
ghost use Rattle.var_state.specs.Clusters.{is_one, size_of, weights};
ghost use Rattle.var_state.specs.Grids.{greater, placed};

use crate::grid::Grid;
use crate::open::Open;
use crate::range::Range;
use std::alloc::Global;
use sv_base::NoMemory;

/// What is known of the registers of one cluster, which have the positions from 1; position 0 is the constant zero. Of a
/// single register two bounds are kept.
#[derive(Drop)]
pub(crate) enum Cluster {
    One(Range),
    Many(Grid),
}

/// A cluster as widened.
#[derive(Drop)]
pub(crate) enum Kept {
    One(Range),
    Many(Open),
}

impl Cluster {
    /// Registers in their ranges.
    pub(crate) fn from_ranges(alloc: Global, ranges: &[Range]) -> Result<Cluster, NoMemory> {
        match ranges {
            [] => return Ok(Cluster::One(Range::zero())),
            [range] => return Ok(Cluster::One(*range)),
            _ => return Ok(Cluster::Many(Grid::from_ranges(alloc, ranges)?)),
        }
    }

    pub(crate) fn copy_of(&self, alloc: Global) -> Result<Cluster, NoMemory> {
        match self {
            Cluster::One(range) => return Ok(Cluster::One(*range)),
            Cluster::Many(grid) => return Ok(Cluster::Many(grid.copy_of(alloc)?)),
        }
    }

    #[tactic(auto, using(crate::proofs::Ones::low_one, crate::proofs::Ones::high_one))]
    pub(crate) fn bounds(&self, position: usize) -> Range
        ensures low { 1 ≤ position → position ≤ size_of self.now → result.low ≡ neg_ℤ (weights self.now position 0) }
        ensures high { 1 ≤ position → position ≤ size_of self.now → result.high ≡ weights self.now 0 position }
    {
        match self {
            Cluster::One(range) => return *range,
            Cluster::Many(grid) => return grid.bounds(position),
        }
    }

    /// The bound of the register at the second position less that at the first.
    #[tactic(auto, using(crate::proofs::Ones::same_one))]
    pub(crate) fn difference(&self, from: usize, to: usize) -> i128
        ensures value { 1 ≤ from → 1 ≤ to → from ≤ size_of self.now → to ≤ size_of self.now → result ≡ weights self.now from to }
    {
        match self {
            Cluster::One(_) => return 0,
            Cluster::Many(grid) => return grid.bound(from, to),
        }
    }

    /// Bounds the register at the second position less that at the first by c. False where no numbers are left.
    pub(crate) fn tighten(&mut self, from: usize, to: usize, c: i128) -> bool
        ensures size { size_of self.new ≡ size_of self.old }
    {
        match self {
            Cluster::One(range) => return tighten_one(range, from, to, c),
            Cluster::Many(grid) => return grid.tighten(from, to, c),
        }
    }

    /// Forgets a register, and bounds it by the range.
    #[tactic(auto, using(crate::proofs::Ones::place_one))]
    pub(crate) fn place(&mut self, position: usize, range: Range)
        ensures size { size_of self.new ≡ size_of self.old }
        ensures value { 1 ≤ position → position ≤ size_of self.old → (p q : ℕ) → p ≤ size_of self.old → q ≤ size_of self.old → weights self.new p q ≡ placed position range.low range.high (weights self.old) p q }
    {
        match self {
            Cluster::One(old) => *old = range,
            Cluster::Many(grid) => grid.place(position, range),
        }
    }

    /// The register `to` becomes `from + c`, cut to the range. False where no numbers are left.
    pub(crate) fn set_sum(&mut self, to: usize, from: usize, c: i128, range: Range) -> bool {
        match self {
            Cluster::One(old) => return set_range(old, old.moved(c, range)),
            Cluster::Many(grid) => return grid.set_sum(to, from, c, range),
        }
    }

    pub(crate) fn join(&mut self, other: &Cluster)
        ensures size { size_of self.new ≡ size_of self.old }
        ensures value { size_of self.old ≡ size_of other.now → is_one self.old ≡ is_one other.now → (p q : ℕ) → p ≤ size_of self.old → q ≤ size_of self.old → weights self.new p q ≡ greater (weights self.old) (weights other.now) p q }
    {
        match (self, other) {
            (Cluster::One(range), Cluster::One(more)) => *range = range.hull(*more),
            (Cluster::Many(grid), Cluster::Many(more)) => grid.join(more),
            _ => {}
        }
    }

    pub(crate) fn copy_from(&mut self, other: &Cluster)
        ensures size { size_of self.new ≡ size_of self.old }
        ensures value { size_of self.old ≡ size_of other.now → is_one self.old ≡ is_one other.now → (p q : ℕ) → p ≤ size_of self.old → q ≤ size_of self.old → weights self.new p q ≡ weights other.now p q }
    {
        match (self, other) {
            (Cluster::One(range), Cluster::One(more)) => *range = *more,
            (Cluster::Many(grid), Cluster::Many(more)) => grid.copy_from(more),
            _ => {}
        }
    }

    pub(crate) fn is_within(&self, other: &Cluster) -> bool {
        match (self, other) {
            (Cluster::One(range), Cluster::One(more)) => return range.lies_in(*more),
            (Cluster::Many(grid), Cluster::Many(more)) => return grid.is_within(more),
            _ => return false,
        }
    }

    pub(crate) fn is_same(&self, other: &Cluster) -> bool {
        match (self, other) {
            (Cluster::One(range), Cluster::One(more)) => return range.is_same(*more),
            (Cluster::Many(grid), Cluster::Many(more)) => return grid.is_same(more),
            _ => return false,
        }
    }

    /// The closed form of a cluster as widened.
    pub(crate) fn close(&mut self, kept: &Kept) {
        match (self, kept) {
            (Cluster::One(range), Kept::One(more)) => *range = *more,
            (Cluster::Many(grid), Kept::Many(open)) => grid.close(open),
            _ => {}
        }
    }
}

// False where there is no range; the old one then stays.
fn set_range(old: &mut Range, range: Option<Range>) -> bool {
    match range {
        Some(range) => {
            *old = range;
            return true;
        }
        None => return false,
    }
}

fn tighten_one(range: &mut Range, from: usize, to: usize, c: i128) -> bool {
    if from == to {
        return 0 <= c;
    }
    if from == 0 {
        return set_range(range, range.part(range.low, c));
    }
    if to == 0 {
        return set_range(range, range.part(0i128.saturating_sub(c), range.high));
    }
    0 <= c
}

impl Kept {
    /// The cluster as it is.
    pub(crate) fn from_cluster(alloc: Global, cluster: &Cluster) -> Result<Kept, NoMemory> {
        match cluster {
            Cluster::One(range) => return Ok(Kept::One(*range)),
            Cluster::Many(grid) => return Ok(Kept::Many(Open::from_grid(alloc, grid)?)),
        }
    }

    pub(crate) fn copy_of(&self, alloc: Global) -> Result<Kept, NoMemory> {
        match self {
            Kept::One(range) => return Ok(Kept::One(*range)),
            Kept::Many(open) => return Ok(Kept::Many(open.copy_of(alloc)?)),
        }
    }

    /// The bounds of a cluster.
    pub(crate) fn set(&mut self, cluster: &Cluster) {
        match (self, cluster) {
            (Kept::One(range), Cluster::One(more)) => *range = *more,
            (Kept::Many(open), Cluster::Many(grid)) => open.set(grid),
            _ => {}
        }
    }

    /// Keeps each bound where that of `next` is not greater, and takes that of `top` otherwise.
    pub(crate) fn widen(&mut self, next: &Cluster, top: &Cluster) {
        match (self, next, top) {
            (Kept::One(range), Cluster::One(next), Cluster::One(top)) => {
                *range = range.widened(*next, *top)
            }
            (Kept::Many(open), Cluster::Many(next), Cluster::Many(top)) => open.widen(next, top),
            _ => {}
        }
    }
}
