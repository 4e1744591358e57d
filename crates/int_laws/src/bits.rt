ghost use Rattle.std.specs.Prelude.{◌≡◌, ℕ, ◌+◌, ◌-◌, ◌%◌, ◌<◌, ◌≤◌, ◌^◌, max, min, pos};
ghost use Rattle.std.specs.Int.{int_div_euclid, int_shr};
ghost use Rattle.int_laws.specs.Bits.{digit, z_and, z_or, z_xor};

/// Two's complement, bit by bit.
pub fn bitwise_and(a: i128, b: i128) -> i128
    ensures value { result ≡ z_and a b }
    ensures digits { (i : ℕ) → digit result i ≡ min (digit a i) (digit b i) }
{
    a & b
}

/// Two's complement, bit by bit.
pub fn bitwise_or(a: i128, b: i128) -> i128
    ensures value { result ≡ z_or a b }
    ensures digits { (i : ℕ) → digit result i ≡ max (digit a i) (digit b i) }
{
    a | b
}

/// Two's complement, bit by bit.
pub fn bitwise_xor(a: i128, b: i128) -> i128
    ensures value { result ≡ z_xor a b }
    ensures digits { (i : ℕ) → digit result i ≡ (digit a i + digit b i) % 2 }
{
    a ^ b
}

/// `2` to the power `count`.
pub fn power_of_two(count: u32) -> u128
    requires { count < 64 }
    ensures value { result ≡ 2 ^ count }
    ensures range { result ≤ 2 ^ 63 }
{
    1u128 << count
}

/// The floor of `a` divided by `2` to the power `count`.
pub fn shifted_right(a: i128, count: u32) -> i128
    requires { count < 64 }
    ensures value { result ≡ int_div_euclid a (pos (2 ^ count)) }
{
    a >> count
}
