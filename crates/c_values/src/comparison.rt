ghost use Rattle.std.specs.Prelude.{◌≡◌};
ghost use Rattle.c_values.specs.Comparisons.{compared};

use crate::operator::Cmp;

/// Whether the comparison holds (ISO/IEC 9899:1999, 6.5.8 and 6.5.9).
pub fn compare(c: Cmp, a: i128, b: i128) -> bool
    ensures value { result ≡ compared c a b }
{
    match c {
        Cmp::Lt => return a < b,
        Cmp::Le => return a <= b,
        Cmp::Gt => return a > b,
        Cmp::Ge => return a >= b,
        Cmp::Eq => return a == b,
        Cmp::Ne => return a != b,
    }
}
