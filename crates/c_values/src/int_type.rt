ghost use Rattle.std.specs.Prelude.{◌≡◌, ◌≤◌, pos, true};
ghost use Rattle.c_values.specs.Types.{IsOf, greatest, is_inside, is_signed, least, modulus, width};

/// The integer types (ISO/IEC 9899:1999, 6.2.5). An enumerated type is `Int`.
#[derive(Clone, Copy, Debug, PartialEq, Eq)]
pub enum IntType {
    Bool,
    Char,
    SChar,
    UChar,
    Short,
    UShort,
    Int,
    UInt,
    Long,
    ULong,
    LongLong,
    ULongLong,
}

/// How many bits hold a value of the type, with its sign bit (6.2.6.2); of `_Bool` one.
pub fn width(t: IntType) -> u32
    ensures value { result ≡ width t }
    ensures range { result ≤ 64 }
{
    match t {
        IntType::Bool => 1,
        IntType::Char | IntType::SChar | IntType::UChar => 8,
        IntType::Short | IntType::UShort => 16,
        IntType::Int | IntType::UInt | IntType::Long | IntType::ULong => 32,
        IntType::LongLong | IntType::ULongLong => 64,
    }
}

pub fn is_signed(t: IntType) -> bool
    ensures value { result ≡ is_signed t }
{
    match t {
        IntType::Char
        | IntType::SChar
        | IntType::Short
        | IntType::Int
        | IntType::Long
        | IntType::LongLong => true,
        _ => false,
    }
}

/// The least value of the type.
pub fn least(t: IntType) -> i128
    ensures value { result ≡ least t }
{
    match t {
        IntType::Char | IntType::SChar => -128,
        IntType::Short => -32768,
        IntType::Int | IntType::Long => -2147483648,
        IntType::LongLong => -9223372036854775808,
        _ => 0,
    }
}

/// The greatest value of the type.
pub fn greatest(t: IntType) -> i128
    ensures value { result ≡ greatest t }
{
    match t {
        IntType::Bool => 1,
        IntType::Char | IntType::SChar => 127,
        IntType::UChar => 255,
        IntType::Short => 32767,
        IntType::UShort => 65535,
        IntType::Int | IntType::Long => 2147483647,
        IntType::UInt | IntType::ULong => 4294967295,
        IntType::LongLong => 9223372036854775807,
        IntType::ULongLong => 18446744073709551615,
    }
}

/// How many values the type has.
pub fn modulus(t: IntType) -> i128
    ensures value { result ≡ pos (modulus t) }
{
    match t {
        IntType::Bool => 2,
        IntType::Char | IntType::SChar | IntType::UChar => 256,
        IntType::Short | IntType::UShort => 65536,
        IntType::Int | IntType::UInt | IntType::Long | IntType::ULong => 4294967296,
        IntType::LongLong | IntType::ULongLong => 18446744073709551616,
    }
}

/// Whether a number is a value of the type.
pub fn is_inside(t: IntType, z: i128) -> bool
    ensures value { result ≡ is_inside t z }
    ensures inside { result ≡ true → IsOf t z }
{
    if z < least(t) {
        return false;
    }
    if greatest(t) < z {
        return false;
    }
    true
}
