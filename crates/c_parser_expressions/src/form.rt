/// A form of expression.
#[derive(Clone, Copy, Debug, PartialEq, Eq)]
pub enum Form {
    /// (ISO/IEC 9899:1999, 6.5.17)
    Expression,
    /// (6.5.16)
    Assignment,
    /// A constant expression (6.6), which is a conditional one whose value counts as an operand.
    Constant,
    /// The operands of binary operators that bind tighter than this level, from 0 for those of `*` to 10 for all.
    Level(u8),
    /// (6.5.4)
    Cast,
    /// (6.5.3)
    Unary,
}
