use c_names::{Checker, Meaning};
use c_tree::{Expr, ExprKind};

/// Whether an expression has the form of an integer constant expression (ISO/IEC 9899:1999, 6.6), as far as its own words
/// tell; the type of a cast is seen later.
pub fn is_constant_form(e: &Expr, checker: &Checker) -> bool {
    match &e.kind {
        ExprKind::Number(_, _) | ExprKind::Character(_) => true,
        ExprKind::SizeOf(_) | ExprKind::SizeOfName(_) => true,
        ExprKind::Name(name) => is_constant_name(*name, checker),
        ExprKind::Plus(a) => is_constant_form(a.get(), checker),
        ExprKind::Negate(a) => is_constant_form(a.get(), checker),
        ExprKind::Unary(_, a) => is_constant_form(a.get(), checker),
        ExprKind::Cast(name, a) => {
            name.declarator.is_none() && is_constant_form(a.get(), checker)
        }
        ExprKind::Binary(_, a, b) => {
            is_constant_form(a.get(), checker) && is_constant_form(b.get(), checker)
        }
        ExprKind::Compare(_, a, b) => {
            is_constant_form(a.get(), checker) && is_constant_form(b.get(), checker)
        }
        ExprKind::Both(a, b) => {
            is_constant_form(a.get(), checker) && is_constant_form(b.get(), checker)
        }
        ExprKind::Either(a, b) => {
            is_constant_form(a.get(), checker) && is_constant_form(b.get(), checker)
        }
        ExprKind::Choose(a, b, c) => {
            is_constant_form(a.get(), checker)
                && is_constant_form(b.get(), checker)
                && is_constant_form(c.get(), checker)
        }
        _ => false,
    }
}

fn is_constant_name(name: u32, checker: &Checker) -> bool {
    match checker.look_up(name) {
        Some(Meaning::Constant(_)) => true,
        _ => false,
    }
}
