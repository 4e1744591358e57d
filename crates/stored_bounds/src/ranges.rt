use core_ir::Leaf;
use intervals::{Interval, range_of};

// The greatest offset of a pointer, 2^80, either way.
const OFFSET: i128 = 1208925819614629174706176;

/// All numbers that what a leaf holds may have: the values of an integer type, or the offsets of a pointer.
pub fn leaf_range(leaf: Leaf) -> Interval {
    match leaf {
        Leaf::Int(kind) => range_of(kind),
        Leaf::Pointer => Interval {
            low: -OFFSET,
            high: OFFSET,
        },
    }
}

/// What an indeterminate leaf counts as: any value of its type, or a pointer of offset 0.
pub fn unknown(leaf: Leaf) -> Interval {
    match leaf {
        Leaf::Int(kind) => range_of(kind),
        Leaf::Pointer => Interval { low: 0, high: 0 },
    }
}
