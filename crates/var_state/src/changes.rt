// The changes of the cells of a closed matrix that leave it closed, each in time by the square of its variables.

ghost use Rattle.std.specs.Prelude.{◌≡◌, ℕ, ◌*◌, ◌+◌, ◌^◌, ◌<◌, ◌≤◌, ◌==◌, if◌then◌else◌, length, pos, neg_ℤ, ◌+ℤ◌, ◌-ℤ◌, ◌≤ℤ◌, ◌<ℤ◌, unsigned_abs, true, false};
ghost use Rattle.std.specs.Int.{int_max, int_min};
ghost use Rattle.var_state.specs.Grids.{at, IsSound, HasRoom, over, placed, moved, greater};

use crate::cells::{copied, fill, get, read};
use crate::range::Range;
use int_laws::{difference, negation, sum};

/// The least and the greatest number of the variable v.
pub(crate) fn bounds_of(cells: &Vec<i128>, n: usize, v: usize) -> Range
    requires room { HasRoom n cells.now.items }
    requires sound { IsSound n (at cells.now.items) }
    requires place { v ≤ n }
    ensures low { result.low ≡ neg_ℤ (at cells.now.items v 0) }
    ensures high { result.high ≡ at cells.now.items 0 v }
{
    let low = negation(read(cells, v, 0));
    let high = read(cells, 0, v);
    Range { low, high }
}

fn over_one(here: i128, to: i128, c: i128, from: i128) -> i128
    requires to { unsigned_abs to ≤ 2 ^ 81 }
    requires c { unsigned_abs c ≤ 2 ^ 81 }
    requires from { unsigned_abs from ≤ 2 ^ 81 }
    ensures value { result ≡ int_min here ((to +ℤ c) +ℤ from) }
{
    here.min(sum(sum(to, c), from))
}

/// Bounds `v_j - v_i` by c, where that leaves no way round that is negative.
pub(crate) fn relax_over(cells: &mut Vec<i128>, n: usize, i: usize, j: usize, c: i128)
    requires room { HasRoom n cells.old.items }
    requires sound { IsSound n (at cells.old.items) }
    requires places { (i ≤ n) × (j ≤ n) }
    requires small { unsigned_abs c ≤ 2 ^ 81 }
    requires back { pos 0 ≤ℤ (at cells.old.items j i +ℤ c) }
    ensures room { HasRoom n cells.new.items }
    ensures value { (p q : ℕ) → p ≤ n → q ≤ n → at cells.new.items p q ≡ over i j c (at cells.old.items) p q }
    ensures sound { IsSound n (at cells.new.items) }
{
    let old = copied(cells);
    fill(
        cells,
        n,
        &|p: usize, q: usize| -> i128
            requires { (p < 17) × (q < 17) × (i < 17) × (j < 17) × (unsigned_abs c ≤ 2 ^ 81)
                × (unsigned_abs (at old p i) ≤ 2 ^ 81) × (unsigned_abs (at old j q) ≤ 2 ^ 81) }
            ensures { result ≡ int_min (at old p q) ((at old p i +ℤ c) +ℤ at old j q) }
        { over_one(get(&old, p, q), get(&old, p, i), c, get(&old, j, q)) },
    );
}

fn placed_one(old: &[i128; 289], v: usize, low: i128, high: i128, p: usize, q: usize) -> i128
    requires places { (p < 17) × (q < 17) }
    requires low { unsigned_abs low ≤ 2 ^ 81 }
    requires high { unsigned_abs high ≤ 2 ^ 81 }
    requires to { unsigned_abs (at old.now p 0) ≤ 2 ^ 81 }
    requires from { unsigned_abs (at old.now 0 q) ≤ 2 ^ 81 }
    ensures value { result ≡ placed v low high (at old.now) p q }
{
    if p == v {
        return if q == v {
            0
        } else {
            difference(get(old, 0, q), low)
        };
    }
    if q == v {
        return sum(get(old, p, 0), high);
    }
    get(old, p, q)
}

/// Forgets the variable v, and bounds it by `low` and `high`.
pub(crate) fn place(cells: &mut Vec<i128>, n: usize, v: usize, low: i128, high: i128)
    requires room { HasRoom n cells.old.items }
    requires sound { IsSound n (at cells.old.items) }
    requires variable { (1 ≤ v) × (v ≤ n) }
    requires low_end { neg_ℤ (pos (2 ^ 80)) ≤ℤ low }
    requires order { low ≤ℤ high }
    requires high_end { high ≤ℤ pos (2 ^ 80) }
    ensures room { HasRoom n cells.new.items }
    ensures value { (p q : ℕ) → p ≤ n → q ≤ n → at cells.new.items p q ≡ placed v low high (at cells.old.items) p q }
    ensures sound { IsSound n (at cells.new.items) }
{
    let old = copied(cells);
    fill(
        cells,
        n,
        &|p: usize, q: usize| -> i128
            requires { (p < 17) × (q < 17) × (unsigned_abs low ≤ 2 ^ 81) × (unsigned_abs high ≤ 2 ^ 81)
                × (unsigned_abs (at old p 0) ≤ 2 ^ 81) × (unsigned_abs (at old 0 q) ≤ 2 ^ 81) }
            ensures { result ≡ placed v low high (at old) p q }
        { placed_one(&old, v, low, high, p, q) },
    );
}

fn moved_one(old: &[i128; 289], v: usize, f: usize, c: i128, p: usize, q: usize) -> i128
    requires places { (p < 17) × (q < 17) × (f < 17) }
    requires small { unsigned_abs c ≤ 2 ^ 81 }
    requires to { unsigned_abs (at old.now p f) ≤ 2 ^ 81 }
    requires from { unsigned_abs (at old.now f q) ≤ 2 ^ 81 }
    ensures value { result ≡ moved v f c (at old.now) p q }
{
    if p == v {
        return if q == v {
            0
        } else {
            difference(get(old, f, q), c)
        };
    }
    if q == v {
        return sum(get(old, p, f), c);
    }
    get(old, p, q)
}

/// The variable v becomes f + c, where f may be v.
pub(crate) fn move_to(cells: &mut Vec<i128>, n: usize, v: usize, f: usize, c: i128)
    requires room { HasRoom n cells.old.items }
    requires sound { IsSound n (at cells.old.items) }
    requires variables { (1 ≤ v) × (v ≤ n) × (f ≤ n) }
    requires small { unsigned_abs c ≤ 2 ^ 81 }
    requires high { (at cells.old.items 0 f +ℤ c) ≤ℤ pos (2 ^ 80) }
    requires low { (at cells.old.items f 0 -ℤ c) ≤ℤ pos (2 ^ 80) }
    ensures room { HasRoom n cells.new.items }
    ensures value { (p q : ℕ) → p ≤ n → q ≤ n → at cells.new.items p q ≡ moved v f c (at cells.old.items) p q }
    ensures sound { IsSound n (at cells.new.items) }
{
    let old = copied(cells);
    fill(
        cells,
        n,
        &|p: usize, q: usize| -> i128
            requires { (p < 17) × (q < 17) × (f < 17) × (unsigned_abs c ≤ 2 ^ 81)
                × (unsigned_abs (at old p f) ≤ 2 ^ 81) × (unsigned_abs (at old f q) ≤ 2 ^ 81) }
            ensures { result ≡ moved v f c (at old) p q }
        { moved_one(&old, v, f, c, p, q) },
    );
}

/// The greater of each two bounds.
pub(crate) fn join(cells: &mut Vec<i128>, n: usize, other: &[i128; 289])
    requires room { HasRoom n cells.old.items }
    requires sound { IsSound n (at cells.old.items) }
    requires other_sound { IsSound n (at other.now) }
    ensures room { HasRoom n cells.new.items }
    ensures value { (p q : ℕ) → p ≤ n → q ≤ n → at cells.new.items p q ≡ greater (at cells.old.items) (at other.now) p q }
    ensures sound { IsSound n (at cells.new.items) }
{
    let old = copied(cells);
    fill(
        cells,
        n,
        &|p: usize, q: usize| -> i128
            requires { (p < 17) × (q < 17) }
            ensures { result ≡ int_max (at old p q) (at other.entry.now p q) }
        { get(&old, p, q).max(get(other, p, q)) },
    );
}

/// The other's bounds.
pub(crate) fn copy_from(cells: &mut Vec<i128>, n: usize, other: &[i128; 289])
    requires room { HasRoom n cells.old.items }
    requires other_sound { IsSound n (at other.now) }
    ensures room { HasRoom n cells.new.items }
    ensures value { (p q : ℕ) → p ≤ n → q ≤ n → at cells.new.items p q ≡ at other.now p q }
    ensures sound { IsSound n (at cells.new.items) }
{
    fill(
        cells,
        n,
        &|p: usize, q: usize| -> i128
            requires { (p < 17) × (q < 17) }
            ensures { result ≡ at other.entry.now p q }
        { get(other, p, q) },
    );
}

/// Bounds `v_j - v_i` by c. False where that leaves no numbers; the bounds are then as they were.
pub(crate) fn tighten(cells: &mut Vec<i128>, n: usize, i: usize, j: usize, c: i128) -> bool
    requires room { HasRoom n cells.old.items }
    requires sound { IsSound n (at cells.old.items) }
    requires places { (i ≤ n) × (j ≤ n) }
    ensures room { HasRoom n cells.new.items }
    ensures sound { IsSound n (at cells.new.items) }
    ensures value { result ≡ true → (p q : ℕ) → p ≤ n → q ≤ n → at cells.new.items p q ≡ over i j c (at cells.old.items) p q }
    ensures empty { result ≡ false → (at cells.old.items j i +ℤ c) <ℤ pos 0 }
    ensures kept { result ≡ false → cells.new.items ≡ cells.old.items }
{
    if read(cells, i, j) <= c {
        return true;
    }
    let least = negation(read(cells, j, i));
    if c < least {
        return false;
    }
    relax_over(cells, n, i, j, c);
    true
}

/// The variable `to` becomes `from + c`, cut to the range; the two may be one. False where that leaves no numbers.
pub(crate) fn set_sum(
    cells: &mut Vec<i128>,
    n: usize,
    to: usize,
    from: usize,
    c: i128,
    range: Range,
) -> bool
    requires room { HasRoom n cells.old.items }
    requires sound { IsSound n (at cells.old.items) }
    requires variables { (1 ≤ to) × (to ≤ n) × (from ≤ n) }
    ensures room { HasRoom n cells.new.items }
    ensures sound { IsSound n (at cells.new.items) }
    ensures value { result ≡ true → (p q : ℕ) → p ≤ n → q ≤ n → at cells.new.items p q ≡ moved to from c (over from 0 (c -ℤ range.low) (over 0 from (range.high -ℤ c) (at cells.old.items))) p q }
{
    if !bounds_of(cells, n, from).can_reach(c, range) {
        return false;
    }
    let most = difference(range.high, c);
    let least = difference(c, range.low);
    if !tighten(cells, n, 0, from, most) {
        return false;
    }
    if !tighten(cells, n, from, 0, least) {
        return false;
    }
    move_to(cells, n, to, from, c);
    true
}

fn row_is_within(cells: &Vec<i128>, other: &Vec<i128>, n: usize, i: usize) -> bool
    requires room { HasRoom n cells.now.items }
    requires other_room { HasRoom n other.now.items }
    requires row { i ≤ n }
{
    for j in 0..n + 1 {
        if read(other, i, j) < read(cells, i, j) {
            return false;
        }
    }
    true
}

/// Whether no bound is greater than the other's.
pub(crate) fn is_within(cells: &Vec<i128>, other: &Vec<i128>, n: usize) -> bool
    requires room { HasRoom n cells.now.items }
    requires other_room { HasRoom n other.now.items }
{
    for i in 0..n + 1 {
        if !row_is_within(cells, other, n, i) {
            return false;
        }
    }
    true
}
