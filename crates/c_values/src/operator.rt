/// The binary operators with an integer result (ISO/IEC 9899:1999, 6.5.5 to 6.5.7 and 6.5.10 to 6.5.12). `And` is `&`.
#[derive(Clone, Copy, Debug, PartialEq, Eq)]
pub enum Op {
    Add,
    Sub,
    Mul,
    Div,
    Rem,
    Shl,
    Shr,
    And,
    Or,
    Xor,
}

/// The unary operators `-` and `~` (6.5.3.3).
#[derive(Clone, Copy, Debug, PartialEq, Eq)]
pub enum UnOp {
    Neg,
    Not,
}

/// The comparisons `<`, `<=`, `>`, `>=`, `==` and `!=` (6.5.8 and 6.5.9).
#[derive(Clone, Copy, Debug, PartialEq, Eq)]
pub enum Cmp {
    Lt,
    Le,
    Gt,
    Ge,
    Eq,
    Ne,
}

/// Why an operator has no defined result.
#[derive(Clone, Copy, Debug, PartialEq, Eq)]
pub enum Undefined {
    /// The divisor is 0 (6.5.5).
    DivisionByZero,
    /// The result is out of its signed type (6.5).
    Overflow,
    /// The shift count is negative or not below the width of the left operand's type (6.5.7).
    ShiftCount,
    /// The value to be shifted left is negative, or what it becomes is out of its signed type (6.5.7).
    ShiftValue,
}
