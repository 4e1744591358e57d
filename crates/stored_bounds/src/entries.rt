// Entries of stored matrices: the bound of `v_j - v_i` for each i and each j other than i, i first, where variable 0 is zero.

use core_ir::Bounds;
use std::alloc::Global;
use sv_base::NoMemory;

/// The bound of `v_j - v_i`, none where there is none or the matrix has no such variables.
pub fn bound_at(b: &Bounds, i: usize, j: usize) -> Option<i128> {
    let size = b.size as usize;
    if i == j || i > size || j > size {
        return None;
    }
    let place = if j < i {
        size * i + j
    } else {
        size * i + j - 1
    };
    b.entries.get(place).copied().flatten()
}

pub fn copied(alloc: Global, b: &Bounds) -> Result<Bounds, NoMemory> {
    Ok(Bounds {
        size: b.size,
        entries: Vec::from_slice(alloc, &b.entries)?,
    })
}

// What the ranges alone bound `v_j - v_i` by.
fn range_bound(ranges: &[(i128, i128)], i: usize, j: usize) -> Option<i128> {
    match (i.checked_sub(1), j.checked_sub(1)) {
        (None, Some(j)) => match ranges.get(j) {
            Some((_, high)) => Some(*high),
            None => None,
        },
        (Some(i), None) => match ranges.get(i) {
            Some((low, _)) => Some(low.wrapping_neg()),
            None => None,
        },
        _ => None,
    }
}

/// The matrix that says of each variable that it lies in its range, and nothing of their differences. It has a variable for each of
/// the first 16 ranges.
pub fn unbounded(alloc: Global, ranges: &[(i128, i128)]) -> Result<Bounds, NoMemory> {
    let size = ranges.len().min(16);
    let mut entries = Vec::new(alloc);
    for i in 0..size + 1 {
        for j in 0..size + 1 {
            if i != j {
                entries.push(range_bound(ranges, i, j))?;
            }
        }
    }
    Ok(Bounds {
        size: size as u8,
        entries,
    })
}

// A bound of `old` where that of `new` is not greater, and else what the ranges give.
fn widened_bound(old: Option<i128>, new: Option<i128>, range: Option<i128>) -> Option<i128> {
    match (old, new) {
        (None, _) => None,
        (Some(a), Some(b)) => { if b <= a { old } else { range } }
        (Some(_), None) => range,
    }
}

fn entry(b: &Bounds, place: usize) -> Option<i128> {
    b.entries.get(place).copied().flatten()
}

/// The matrix `old` widened by `new`: each bound of `old` stays where that of `new` is not greater, and else becomes that of the range of
/// a variable, or none for a difference.
pub fn widened(
    alloc: Global,
    old: &Bounds,
    new: &Bounds,
    ranges: &[(i128, i128)],
) -> Result<Bounds, NoMemory> {
    let top = unbounded(alloc, ranges)?;
    let mut entries = Vec::new(alloc);
    for place in 0..old.entries.len() {
        entries.push(widened_bound(entry(old, place), entry(new, place), entry(&top, place)))?;
    }
    Ok(Bounds {
        size: old.size,
        entries,
    })
}
