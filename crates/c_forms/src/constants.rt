use c_typed::{TypeKind, TypeTable, TypedExpr, TypedKind};
use c_values::{
    Cmp, IntType, Op, UnOp, Undefined, apply, apply_unary, compare, convert, is_inside,
};

/// What an expression is as an integer constant expression (ISO/IEC 9899:1999, 6.6).
#[derive(Clone, Copy, Debug, PartialEq, Eq)]
pub enum Constant {
    Value(i128),
    /// It has the form of one, and an operator that is evaluated has no defined result.
    Undefined,
    NotInForm,
}

/// The value of a constant expression. All of it has to have the form; what `&&`, `||` and `?:` leave out is not
/// evaluated (6.5.13 to 6.5.15).
#[cycle(constants)]
pub fn constant_of(table: &TypeTable, expr: &TypedExpr) -> Constant {
    if let TypedKind::Constant(value) = &expr.kind {
        return Constant::Value(*value);
    }
    match table.kind(expr.of) {
        TypeKind::Int(kind) => computed(table, expr, kind),
        _ => Constant::NotInForm,
    }
}

#[cycle(constants)]
fn computed(table: &TypeTable, expr: &TypedExpr, kind: IntType) -> Constant {
    match &expr.kind {
        TypedKind::Convert(a) => converted(kind, constant_of(table, a)),
        TypedKind::Unary(op, a) => unary(*op, kind, constant_of(table, a)),
        TypedKind::Not(a) => negated(constant_of(table, a)),
        TypedKind::Binary(op, a, b) => {
            binary(*op, kind, constant_of(table, a), constant_of(table, b))
        }
        TypedKind::Compare(op, a, b) => compared(*op, constant_of(table, a), constant_of(table, b)),
        TypedKind::Both(a, b) => both(constant_of(table, a), constant_of(table, b)),
        TypedKind::Either(a, b) => either(constant_of(table, a), constant_of(table, b)),
        TypedKind::Choose(c, a, b) => chosen(
            constant_of(table, c),
            constant_of(table, a),
            constant_of(table, b),
        ),
        _ => Constant::NotInForm,
    }
}

/// Whether the expression is an integer constant expression of value 0, which converts to a null pointer (6.3.2.3).
pub fn is_null(table: &TypeTable, expr: &TypedExpr) -> bool {
    match table.kind(expr.of) {
        TypeKind::Int(_) => constant_of(table, expr) == Constant::Value(0),
        _ => false,
    }
}

fn truth(holds: bool) -> Constant {
    if holds {
        return Constant::Value(1);
    }
    Constant::Value(0)
}

fn converted(kind: IntType, a: Constant) -> Constant {
    match a {
        Constant::Value(value) => Constant::Value(convert(kind, value)),
        other => other,
    }
}

fn negated(a: Constant) -> Constant {
    match a {
        Constant::Value(value) => truth(value == 0),
        other => other,
    }
}

fn defined(found: Result<i128, Undefined>) -> Constant {
    match found {
        Ok(value) => Constant::Value(value),
        Err(_) => Constant::Undefined,
    }
}

// An operand always is a value of the operator's type.
fn unary(op: UnOp, kind: IntType, a: Constant) -> Constant {
    match a {
        Constant::Value(value) => {
            if !is_inside(kind, value) {
                return Constant::NotInForm;
            }
            defined(apply_unary(op, kind, value))
        }
        other => other,
    }
}

// What two operands leave of the whole where they do not both have values.
fn lesser(a: Constant, b: Constant) -> Constant {
    match (a, b) {
        (Constant::NotInForm, _) => Constant::NotInForm,
        (_, Constant::NotInForm) => Constant::NotInForm,
        _ => Constant::Undefined,
    }
}

fn binary(op: Op, kind: IntType, a: Constant, b: Constant) -> Constant {
    match (a, b) {
        (Constant::Value(a), Constant::Value(b)) => applied(op, kind, a, b),
        _ => lesser(a, b),
    }
}

// Operands always are values of the operator's type, the count of a shift aside; one that is none is too large or negative.
fn applied(op: Op, kind: IntType, a: i128, b: i128) -> Constant {
    if !is_inside(kind, a) {
        return Constant::NotInForm;
    }
    if !is_inside(kind, b) {
        return Constant::Undefined;
    }
    defined(apply(op, kind, a, b))
}

fn compared(op: Cmp, a: Constant, b: Constant) -> Constant {
    match (a, b) {
        (Constant::Value(a), Constant::Value(b)) => truth(compare(op, a, b)),
        _ => lesser(a, b),
    }
}

fn both(a: Constant, b: Constant) -> Constant {
    match (a, b) {
        (Constant::Value(a), Constant::Value(b)) => truth(a != 0 && b != 0),
        (Constant::Value(0), Constant::Undefined) => Constant::Value(0),
        _ => lesser(a, b),
    }
}

fn either(a: Constant, b: Constant) -> Constant {
    match (a, b) {
        (Constant::Value(a), Constant::Value(b)) => truth(a != 0 || b != 0),
        (Constant::Value(a), Constant::Undefined) => {
            if a != 0 {
                return Constant::Value(1);
            }
            Constant::Undefined
        }
        _ => lesser(a, b),
    }
}

fn chosen(condition: Constant, a: Constant, b: Constant) -> Constant {
    if a == Constant::NotInForm || b == Constant::NotInForm {
        return Constant::NotInForm;
    }
    match condition {
        Constant::Value(0) => b,
        Constant::Value(_) => a,
        other => other,
    }
}
