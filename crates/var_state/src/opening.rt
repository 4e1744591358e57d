// The cells of a matrix as widened, whose bounds need not be closed.

ghost use Rattle.std.specs.Prelude.{◌≡◌, ℕ, ◌<◌, ◌≤◌, if◌then◌else◌, int_lt};
ghost use Rattle.var_state.specs.Grids.{at, HasRoom, IsRanged, IsSmall, IsSound};

use crate::cells::{copied, fill, get};

/// The bounds of a closed matrix.
pub(crate) fn open_from(cells: &mut Vec<i128>, n: usize, closed: &[i128; 289])
    requires room { HasRoom n cells.old.items }
    requires closed { IsSound n (at closed.now) }
    ensures room { HasRoom n cells.new.items }
    ensures ranged { IsRanged n (at cells.new.items) }
    ensures small { IsSmall n (at cells.new.items) }
    ensures value { (p q : ℕ) → p ≤ n → q ≤ n → at cells.new.items p q ≡ at closed.now p q }
{
    fill(
        cells,
        n,
        &|p: usize, q: usize| -> i128
            requires { (p < 17) × (q < 17) }
            ensures { result ≡ at closed.entry.now p q }
        { get(closed, p, q) },
    );
}

fn kept_one(old: i128, next: i128, top: i128) -> i128
    ensures value { result ≡ (if int_lt old next then top else old) }
{
    if old < next {
        return top;
    }
    old
}

/// Keeps each bound where that of `next` is not greater, and takes that of `top` otherwise.
pub(crate) fn widen(cells: &mut Vec<i128>, n: usize, next: &[i128; 289], top: &[i128; 289])
    requires room { HasRoom n cells.old.items }
    requires ranged { IsRanged n (at cells.old.items) }
    requires small { IsSmall n (at cells.old.items) }
    requires top { IsSound n (at top.now) }
    ensures room { HasRoom n cells.new.items }
    ensures ranged { IsRanged n (at cells.new.items) }
    ensures small { IsSmall n (at cells.new.items) }
    ensures value { (p q : ℕ) → p ≤ n → q ≤ n → at cells.new.items p q ≡ (if int_lt (at cells.old.items p q) (at next.now p q) then at top.now p q else at cells.old.items p q) }
{
    let old = copied(cells);
    fill(
        cells,
        n,
        &|p: usize, q: usize| -> i128
            requires { (p < 17) × (q < 17) }
            ensures { result ≡ (if int_lt (at old p q) (at next.entry.now p q) then at top.entry.now p q else at old p q) }
        { kept_one(get(&old, p, q), get(next, p, q), get(top, p, q)) },
    );
}
