ghost use Rattle.std.specs.Prelude.{◌≡◌, ℕ, ◌≤◌, true, false, pos, neg_ℤ, ◌+ℤ◌, ◌-ℤ◌, ◌<ℤ◌};
ghost use Rattle.var_state.specs.Grids.{at, IsSound, greater, moved, over, placed};

use crate::cells::{copied, read, zeros};
use crate::changes;
use crate::closing::close_into;
use crate::open::Open;
use crate::range::Range;
use std::alloc::Global;
use std::marker::Model;
use sv_base::NoMemory;

/// A closed matrix of bounds on the differences of 1 to 16 integer variables, numbered from 1, and the constant zero,
/// number 0. Each bound stands: that at i and j is the bound of `v_j - v_i`. Variables that are not there are left out of
/// account.
#[derive(Drop)]
pub(crate) struct Grid {
    size: usize,
    cells: Vec<i128>,
}

impl Model for Grid {
    ghost use Rattle.std.specs.Prelude.{◌≡◌, ℕ, ◌≤◌, length};
    ghost use Rattle.var_state.specs.Grids.{Raw, at, HasRoom, IsSound};

    ghost Value = { Raw };

    ghost view = { λ m. record { size = m.size; cells = m.cells.items } };

    ghost invariant = { λ m. HasRoom m.size m.cells.items × IsSound m.size (at m.cells.items) };
}

impl Grid {
    /// A matrix of variables that are all 0; there is at least one, and at most 16 are.
    fn zero(alloc: Global, variables: usize) -> Result<Grid, NoMemory> {
        let size = variables.clamp(1, 16);
        let cells = zeros(alloc, size)?;
        Ok(Grid { size, cells })
    }

    /// A matrix of as many variables as there are ranges, up to 16, each in its range.
    pub(crate) fn from_ranges(alloc: Global, ranges: &[Range]) -> Result<Grid, NoMemory> {
        let mut grid = Grid::zero(alloc, ranges.len())?;
        for (i, range) in ranges.iter().enumerate() {
            grid.place(i.saturating_add(1), *range);
        }
        Ok(grid)
    }

    pub(crate) fn copy_of(&self, alloc: Global) -> Result<Grid, NoMemory> {
        let size = self.size;
        let cells = self.cells.clone()?;
        Ok(Grid { size, cells })
    }

    pub(crate) fn size(&self) -> usize
        ensures size { result ≡ self.now.size }
        ensures range { (1 ≤ result) × (result ≤ 16) }
    {
        self.size
    }

    /// The bound of `v_j - v_i`; 0 where one of them is not there.
    pub(crate) fn bound(&self, i: usize, j: usize) -> i128
        ensures value { i ≤ self.now.size → j ≤ self.now.size → result ≡ at self.now.cells i j }
    {
        if self.size < i || self.size < j {
            return 0;
        }
        read(&self.cells, i, j)
    }

    /// The least and the greatest number of a variable.
    pub(crate) fn bounds(&self, v: usize) -> Range
        ensures low { v ≤ self.now.size → result.low ≡ neg_ℤ (at self.now.cells v 0) }
        ensures high { v ≤ self.now.size → result.high ≡ at self.now.cells 0 v }
    {
        if self.size < v {
            return Range::all();
        }
        changes::bounds_of(&self.cells, self.size, v)
    }

    /// Bounds `v_j - v_i` by c. False where no numbers are left; the matrix is then as it was.
    pub(crate) fn tighten(&mut self, i: usize, j: usize, c: i128) -> bool
        ensures size { self.new.size ≡ self.old.size }
        ensures value { i ≤ self.old.size → j ≤ self.old.size → result ≡ true → (p q : ℕ) → p ≤ self.old.size → q ≤ self.old.size → at self.new.cells p q ≡ over i j c (at self.old.cells) p q }
        ensures empty { i ≤ self.old.size → j ≤ self.old.size → result ≡ false → (at self.old.cells j i +ℤ c) <ℤ pos 0 }
    {
        if self.size < i || self.size < j {
            return true;
        }
        changes::tighten(&mut self.cells, self.size, i, j, c)
    }

    /// Forgets the variable v, and bounds it by the range.
    pub(crate) fn place(&mut self, v: usize, range: Range)
        ensures size { self.new.size ≡ self.old.size }
        ensures value { 1 ≤ v → v ≤ self.old.size → (p q : ℕ) → p ≤ self.old.size → q ≤ self.old.size → at self.new.cells p q ≡ placed v range.low range.high (at self.old.cells) p q }
    {
        if v == 0 || self.size < v {
            return;
        }
        changes::place(&mut self.cells, self.size, v, range.low, range.high);
    }

    /// The variable `to` becomes `from + c`, cut to the range; the two may be one. False where no numbers are left.
    pub(crate) fn set_sum(&mut self, to: usize, from: usize, c: i128, range: Range) -> bool
        ensures size { self.new.size ≡ self.old.size }
        ensures value { 1 ≤ to → to ≤ self.old.size → from ≤ self.old.size → result ≡ true → (p q : ℕ) → p ≤ self.old.size → q ≤ self.old.size → at self.new.cells p q ≡ moved to from c (over from 0 (c -ℤ range.low) (over 0 from (range.high -ℤ c) (at self.old.cells))) p q }
    {
        if to == 0 || self.size < to || self.size < from {
            return true;
        }
        changes::set_sum(&mut self.cells, self.size, to, from, c, range)
    }

    /// The greater of each two bounds.
    pub(crate) fn join(&mut self, other: &Grid)
        ensures size { self.new.size ≡ self.old.size }
        ensures value { self.old.size ≡ other.now.size → (p q : ℕ) → p ≤ self.old.size → q ≤ self.old.size → at self.new.cells p q ≡ greater (at self.old.cells) (at other.now.cells) p q }
    {
        if self.size != other.size {
            return;
        }
        changes::join(&mut self.cells, self.size, &copied(&other.cells));
    }

    /// The other's bounds.
    pub(crate) fn copy_from(&mut self, other: &Grid)
        ensures size { self.new.size ≡ self.old.size }
        ensures value { self.old.size ≡ other.now.size → (p q : ℕ) → p ≤ self.old.size → q ≤ self.old.size → at self.new.cells p q ≡ at other.now.cells p q }
    {
        if self.size != other.size {
            return;
        }
        changes::copy_from(&mut self.cells, self.size, &copied(&other.cells));
    }

    /// Whether no bound is greater than the other's.
    pub(crate) fn is_within(&self, other: &Grid) -> bool {
        if self.size != other.size {
            return false;
        }
        changes::is_within(&self.cells, &other.cells, self.size)
    }

    pub(crate) fn is_same(&self, other: &Grid) -> bool {
        self.size == other.size && self.cells.as_slice() == other.cells.as_slice()
    }

    /// The bounds, to be read while others are written.
    pub(crate) fn copied(&self) -> [i128; 289]
        ensures sound { IsSound self.now.size (at result) }
    {
        copied(&self.cells)
    }

    /// The closed form of a matrix as widened; where that has no solution, the bounds stay as they are.
    pub(crate) fn close(&mut self, open: &Open) {
        if self.size != open.size() {
            return;
        }
        close_into(&mut self.cells, self.size, &open.copied());
    }
}
