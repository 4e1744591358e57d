ghost use Rattle.std.specs.Prelude.{◌≡◌};
ghost use Rattle.var_state.specs.Grids.{at, IsRanged, IsSmall};

use crate::cells::{copied, zeros};
use crate::grid::Grid;
use crate::opening;
use std::alloc::Global;
use std::marker::Model;
use sv_base::NoMemory;

/// A matrix as widened, which may not be closed. A bound that was dropped is what follows from the ranges.
#[derive(Drop)]
pub(crate) struct Open {
    size: usize,
    cells: Vec<i128>,
}

impl Model for Open {
    ghost use Rattle.std.specs.Prelude.{◌≡◌, ℕ, ◌≤◌, length};
    ghost use Rattle.var_state.specs.Grids.{Raw, at, HasRoom, IsRanged, IsSmall};

    ghost Value = { Raw };

    ghost view = { λ m. record { size = m.size; cells = m.cells.items } };

    ghost invariant = { λ m. HasRoom m.size m.cells.items × IsRanged m.size (at m.cells.items) × IsSmall m.size (at m.cells.items) };
}

impl Open {
    /// The matrix as it is.
    pub(crate) fn from_grid(alloc: Global, grid: &Grid) -> Result<Open, NoMemory> {
        let size = grid.size();
        let mut cells = zeros(alloc, size)?;
        opening::open_from(&mut cells, size, &grid.copied());
        Ok(Open { size, cells })
    }

    pub(crate) fn copy_of(&self, alloc: Global) -> Result<Open, NoMemory> {
        let size = self.size;
        let cells = self.cells.clone()?;
        Ok(Open { size, cells })
    }

    pub(crate) fn size(&self) -> usize
        ensures size { result ≡ self.now.size }
    {
        self.size
    }

    /// The bounds, to be read while others are written.
    pub(crate) fn copied(&self) -> [i128; 289]
        ensures ranged { IsRanged self.now.size (at result) }
        ensures small { IsSmall self.now.size (at result) }
    {
        copied(&self.cells)
    }

    /// The bounds of a closed matrix.
    pub(crate) fn set(&mut self, grid: &Grid) {
        if self.size != grid.size() {
            return;
        }
        opening::open_from(&mut self.cells, self.size, &grid.copied());
    }

    /// Keeps each bound where that of `next` is not greater, and takes that of `top` otherwise.
    pub(crate) fn widen(&mut self, next: &Grid, top: &Grid) {
        if self.size != next.size() || self.size != top.size() {
            return;
        }
        opening::widen(&mut self.cells, self.size, &next.copied(), &top.copied());
    }
}
