// The words of rows.
use c_values::{Cmp, IntType, Op, UnOp};

pub fn op(word: Option<&str>) -> Option<Op> {
    match word? {
        "Add" => Some(Op::Add),
        "Sub" => Some(Op::Sub),
        "Mul" => Some(Op::Mul),
        "Div" => Some(Op::Div),
        "Rem" => Some(Op::Rem),
        "Shl" => Some(Op::Shl),
        "Shr" => Some(Op::Shr),
        "And" => Some(Op::And),
        "Or" => Some(Op::Or),
        "Xor" => Some(Op::Xor),
        _ => None,
    }
}

pub fn unary_op(word: Option<&str>) -> Option<UnOp> {
    match word? {
        "Neg" => Some(UnOp::Neg),
        "Not" => Some(UnOp::Not),
        _ => None,
    }
}

pub fn comparison(word: Option<&str>) -> Option<Cmp> {
    match word? {
        "Lt" => Some(Cmp::Lt),
        "Le" => Some(Cmp::Le),
        "Gt" => Some(Cmp::Gt),
        "Ge" => Some(Cmp::Ge),
        "Eq" => Some(Cmp::Eq),
        "Ne" => Some(Cmp::Ne),
        _ => None,
    }
}

pub fn int_type(word: Option<&str>) -> Option<IntType> {
    match word? {
        "Bool" => Some(IntType::Bool),
        "Char" => Some(IntType::Char),
        "SChar" => Some(IntType::SChar),
        "UChar" => Some(IntType::UChar),
        "Short" => Some(IntType::Short),
        "UShort" => Some(IntType::UShort),
        "Int" => Some(IntType::Int),
        "UInt" => Some(IntType::UInt),
        "Long" => Some(IntType::Long),
        "ULong" => Some(IntType::ULong),
        "LongLong" => Some(IntType::LongLong),
        "ULongLong" => Some(IntType::ULongLong),
        _ => None,
    }
}

pub fn number(word: Option<&str>) -> Option<i128> {
    word?.parse::<i128>().ok()
}

pub fn is_number(word: Option<&str>, number: i128) -> bool {
    self::number(word) == Some(number)
}
