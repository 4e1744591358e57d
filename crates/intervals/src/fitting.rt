ghost use Rattle.std.specs.Prelude.{◌≡◌, Some, false, pos};
ghost use Rattle.c_values.specs.Types.{greatest, least, modulus};
ghost use Rattle.intervals.specs.Forms.{fit, fit_all, fit_option, fit_with, greatest_four, least_four};
ghost use Rattle.intervals.specs.Intervals.{from_to};

use crate::interval::{Interval, range_of, span};
use c_values::{IntType, greatest, is_signed, least, modulus};
use int_laws::is_same;

/// What exact results from `low` to `high` leave in the type.
pub fn fit(t: IntType, low: i128, high: i128) -> Option<Interval>
    ensures value { result ≡ fit t low high }
{
    if is_signed(t) {
        return span(low.max(least(t)), high.min(greatest(t)));
    }
    let modulus = modulus(t);
    if is_same(low.div_euclid(modulus), high.div_euclid(modulus)) {
        return Some(Interval {
            low: low.rem_euclid(modulus),
            high: high.rem_euclid(modulus),
        });
    }
    Some(range_of(t))
}

/// What exact results leave in an unsigned type, which may pass the greatest i128.
pub fn fit_unsigned(t: IntType, low: u128, high: u128) -> Interval
    ensures value { Some result ≡ fit_with false (least t) (greatest t) (modulus t) (pos low) (pos high) }
{
    let modulus = modulus(t) as u128;
    if low / modulus == high / modulus {
        return Interval {
            low: (low % modulus) as i128,
            high: (high % modulus) as i128,
        };
    }
    range_of(t)
}

pub fn fit_all(t: IntType, i: Interval) -> Option<Interval>
    ensures value { result ≡ fit_all t i }
{
    fit(t, i.low, i.high)
}

pub fn fit_option(t: IntType, o: Option<Interval>) -> Option<Interval>
    ensures value { result ≡ fit_option t o }
{
    match o {
        Some(i) => return fit_all(t, i),
        None => return None,
    }
}

pub fn least_four(p: i128, q: i128, r: i128, s: i128) -> i128
    ensures value { result ≡ least_four p q r s }
{
    p.min(q).min(r.min(s))
}

pub fn greatest_four(p: i128, q: i128, r: i128, s: i128) -> i128
    ensures value { result ≡ greatest_four p q r s }
{
    p.max(q).max(r.max(s))
}

/// The least to the greatest of four numbers.
pub fn hull_of_four(p: i128, q: i128, r: i128, s: i128) -> Interval
    ensures value { result ≡ from_to (least_four p q r s) (greatest_four p q r s) }
{
    Interval {
        low: least_four(p, q, r, s),
        high: greatest_four(p, q, r, s),
    }
}
