ghost use Rattle.std.specs.Prelude.{◌≡◌, ℤ, neg_ℤ, IsTrue};
ghost use Rattle.c_values.specs.declared.int_type.IntType.{IntType};
ghost use Rattle.core_ir.specs.Ranges.{Includes, type_range};

use c_values::{IntType, greatest, least};

/// The numbers from the first to the second.
pub(crate) type Range = (i128, i128);

pub(crate) fn type_range(t: IntType) -> Range
    ensures { result ≡ type_range t }
{
    (least(t), greatest(t))
}

/// Whether the second range lies in the first.
pub(crate) fn includes(outer: Range, inner: Range) -> bool
    ensures { IsTrue result → Includes outer inner }
{
    outer.0 <= inner.0 && inner.1 <= outer.1
}
