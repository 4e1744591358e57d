// Bounds that may be missing, which count as infinite.

ghost use Rattle.std.specs.Prelude.{◌≡◌, ℕ, ◌^◌, ◌<◌, ◌≤◌, ◌↔◌, ℤ, pos, ◌<ℤ◌, ◌+ℤ◌, neg_ℤ, unsigned_abs, Option, Some, None, IsTrue};
ghost use Rattle.dbm_matrix.specs.Bounds.{AtMost};
ghost use Rattle.dbm_matrix.specs.Changes.{lesser, greater, stable, plus, sum_of};

pub(crate) fn min(a: Option<i128>, b: Option<i128>) -> Option<i128>
    ensures lesser { result ≡ lesser a b }
{
    match (a, b) {
        (Some(a), Some(b)) => Some(if b < a { b } else { a }),
        (Some(a), None) => Some(a),
        (None, _) => b,
    }
}

pub(crate) fn max(a: Option<i128>, b: Option<i128>) -> Option<i128>
    ensures greater { result ≡ greater a b }
{
    match (a, b) {
        (Some(a), Some(b)) => Some(if a < b { b } else { a }),
        (Some(_), None) => None,
        (None, _) => None,
    }
}

pub(crate) fn keep_stable(a: Option<i128>, b: Option<i128>) -> Option<i128>
    ensures stable { result ≡ stable a b }
{
    match (a, b) {
        (Some(a), Some(b)) => if a < b { None } else { Some(a) },
        (Some(_), None) => None,
        (None, _) => None,
    }
}

// One operator in a function of its own, so that callers see an integer and no cast.
fn total(a: i128, b: i128) -> i128
    requires a { unsigned_abs a ≤ 2 ^ 125 }
    requires b { unsigned_abs b ≤ 2 ^ 125 }
    ensures sum { result ≡ a +ℤ b }
{
    a + b
}

pub(crate) fn negated(a: i128) -> i128
    requires small { unsigned_abs a ≤ 2 ^ 125 }
    ensures value { result ≡ neg_ℤ a }
{
    -a
}

pub(crate) fn add(a: Option<i128>, c: i128) -> Option<i128>
    requires a { (x : _) → a ≡ Some x → unsigned_abs x ≤ 2 ^ 125 }
    requires c { unsigned_abs c ≤ 2 ^ 125 }
    ensures sum { result ≡ plus a c }
{
    match a {
        Some(a) => Some(total(a, c)),
        None => None,
    }
}

pub(crate) fn sum(a: Option<i128>, b: Option<i128>) -> Option<i128>
    requires a { (x : _) → a ≡ Some x → unsigned_abs x ≤ 2 ^ 125 }
    requires b { (x : _) → b ≡ Some x → unsigned_abs x ≤ 2 ^ 125 }
    ensures sum { result ≡ sum_of a b }
{
    match (a, b) {
        (Some(a), Some(b)) => Some(total(a, b)),
        (Some(_), None) => None,
        (None, _) => None,
    }
}

pub(crate) fn is_below(a: Option<i128>, c: i128) -> bool
    ensures below { IsTrue result ↔ ((x : ℤ) × (a ≡ Some x) × (x <ℤ c)) }
{
    match a {
        Some(a) => a < c,
        None => false,
    }
}
