ghost use Rattle.std.specs.Prelude.{◌≡◌, ◌≢◌, ◌≤◌, ◌^◌, ◌+ℤ◌, ◌-ℤ◌, ◌*ℤ◌, false, neg_ℤ, pos, true, unsigned_abs};
ghost use Rattle.std.specs.Int.RustNames.{int_div, int_rem};
ghost use Rattle.std.specs.Ordering.{int_eq};

pub fn sum(a: i128, b: i128) -> i128
    requires a { unsigned_abs a ≤ 2 ^ 125 }
    requires b { unsigned_abs b ≤ 2 ^ 125 }
    ensures value { result ≡ a +ℤ b }
{
    a + b
}

pub fn difference(a: i128, b: i128) -> i128
    requires a { unsigned_abs a ≤ 2 ^ 125 }
    requires b { unsigned_abs b ≤ 2 ^ 125 }
    ensures value { result ≡ a -ℤ b }
{
    a - b
}

pub fn negation(a: i128) -> i128
    requires a { unsigned_abs a ≤ 2 ^ 125 }
    ensures value { result ≡ neg_ℤ a }
{
    -a
}

pub fn product(a: i128, b: i128) -> i128
    requires a { unsigned_abs a ≤ 2 ^ 63 }
    requires b { unsigned_abs b ≤ 2 ^ 63 }
    ensures value { result ≡ a *ℤ b }
{
    a * b
}

/// The quotient, cut towards zero.
pub fn quotient(a: i128, b: i128) -> i128
    requires a { unsigned_abs a ≤ 2 ^ 125 }
    requires b { b ≢ pos 0 }
    ensures value { result ≡ int_div a b }
{
    a / b
}

/// What the cut quotient leaves, with the sign of `a`.
pub fn remainder(a: i128, b: i128) -> i128
    requires a { unsigned_abs a ≤ 2 ^ 125 }
    requires b { b ≢ pos 0 }
    ensures value { result ≡ int_rem a b }
{
    a % b
}

pub fn is_same(a: i128, b: i128) -> bool
    ensures value { result ≡ int_eq a b }
    ensures same { result ≡ true → a ≡ b }
    ensures apart { result ≡ false → a ≢ b }
{
    a == b
}

pub fn is_zero(a: i128) -> bool
    ensures value { result ≡ int_eq a (pos 0) }
    ensures zero { result ≡ true → a ≡ pos 0 }
    ensures apart { result ≡ false → a ≢ pos 0 }
{
    a == 0
}
