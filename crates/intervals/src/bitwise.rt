ghost use Rattle.std.specs.Prelude.{◌≡◌, ◌<◌, ◌≤◌, ◌-◌, ◌^◌, pos, unsigned_abs};
ghost use Rattle.std.specs.Int.{int_max, leading_zeros, w128};
ghost use Rattle.intervals.specs.Forms.{and_parts, ands, are_naturals, are_single, is_one, only, ones, or_parts, ors, xor_parts, xors};

use crate::interval::{Interval, range_of};
use c_values::IntType;
use int_laws::{bitwise_and, bitwise_or, bitwise_xor, is_same};

pub fn and(t: IntType, a: Interval, b: Interval) -> Interval
    ensures value { result ≡ ands t a b }
{
    if are_single(a, b) {
        return only(bitwise_and(a.low, b.low));
    }
    and_parts(t, a, b)
}

fn and_parts(t: IntType, a: Interval, b: Interval) -> Interval
    ensures value { result ≡ and_parts t a b }
{
    if a.low < 0 {
        if b.low < 0 {
            return range_of(t);
        }
        return Interval {
            low: 0,
            high: b.high,
        };
    }
    if b.low < 0 {
        return Interval {
            low: 0,
            high: a.high,
        };
    }
    Interval {
        low: 0,
        high: a.high.min(b.high),
    }
}

pub fn or(t: IntType, a: Interval, b: Interval) -> Interval
    requires a { unsigned_abs a.high < 2 ^ 64 }
    requires b { unsigned_abs b.high < 2 ^ 64 }
    ensures value { result ≡ ors t a b }
{
    if are_single(a, b) {
        return only(bitwise_or(a.low, b.low));
    }
    or_parts(t, a, b)
}

fn or_parts(t: IntType, a: Interval, b: Interval) -> Interval
    requires a { unsigned_abs a.high < 2 ^ 64 }
    requires b { unsigned_abs b.high < 2 ^ 64 }
    ensures value { result ≡ or_parts t a b }
{
    if are_naturals(a, b) {
        return Interval {
            low: greater(a.low, b.low),
            high: ones(greater(a.high, b.high)),
        };
    }
    range_of(t)
}

pub fn xor(t: IntType, a: Interval, b: Interval) -> Interval
    requires a { unsigned_abs a.high < 2 ^ 64 }
    requires b { unsigned_abs b.high < 2 ^ 64 }
    ensures value { result ≡ xors t a b }
{
    if are_single(a, b) {
        return only(bitwise_xor(a.low, b.low));
    }
    xor_parts(t, a, b)
}

fn xor_parts(t: IntType, a: Interval, b: Interval) -> Interval
    requires a { unsigned_abs a.high < 2 ^ 64 }
    requires b { unsigned_abs b.high < 2 ^ 64 }
    ensures value { result ≡ xor_parts t a b }
{
    if are_naturals(a, b) {
        return Interval {
            low: 0,
            high: ones(greater(a.high, b.high)),
        };
    }
    range_of(t)
}

fn greater(x: i128, y: i128) -> i128
    ensures value { result ≡ int_max x y }
    ensures range { unsigned_abs x < 2 ^ 64 → unsigned_abs y < 2 ^ 64 → unsigned_abs result < 2 ^ 64 }
{
    if y < x {
        return x;
    }
    y
}

fn only(z: i128) -> Interval
    ensures value { result ≡ only z }
{
    Interval { low: z, high: z }
}

fn are_single(a: Interval, b: Interval) -> bool
    ensures value { result ≡ are_single a b }
{
    is_same(a.low, a.high) && is_same(b.low, b.high)
}

fn are_naturals(a: Interval, b: Interval) -> bool
    ensures value { result ≡ are_naturals a b }
{
    if a.low < 0 {
        return false;
    }
    if b.low < 0 {
        return false;
    }
    true
}

// The number whose binary digits are all ones, as many as n has.
fn ones(n: i128) -> i128
    requires n { unsigned_abs n < 2 ^ 64 }
    ensures value { result ≡ ones (unsigned_abs n) }
{
    all_ones(digits(n.unsigned_abs()))
}

// How many binary digits a number has.
#[tactic(auto, using(crate::proofs::Ones::digits_few))]
fn digits(n: u128) -> u32
    requires n { n < 2 ^ 64 }
    ensures value { result ≡ 128 - leading_zeros w128 n }
    ensures range { result ≤ 64 }
{
    128 - n.leading_zeros()
}

fn all_ones(digits: u32) -> i128
    requires digits { digits ≤ 64 }
    ensures value { result ≡ pos (2 ^ digits - 1) }
{
    ((1u128 << digits) - 1) as i128
}
