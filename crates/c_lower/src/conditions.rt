use crate::branches::Test;
use crate::code::Code;
use crate::context::{Context, NOTHING, is_int, register_of};
use crate::values::{kept, value};
use c_typed::{TypedExpr, TypedKind};
use c_values::Cmp;
use core_ir::{Cond, Operand, StepList};
use std::alloc::{AllocError, Global};
use sv_base::FrontFault;

/// An expression as a condition (ISO/IEC 9899:1999, 6.8.4 and 6.8.5): its operators `!`, `&&` and `||` and its comparisons choose
/// branches, and any other value is compared with 0.
#[cycle(values)]
pub(crate) fn test(e: &TypedExpr, x: Context<'_>, c: &mut Code) -> Result<Test, FrontFault> {
    match &e.kind {
        TypedKind::Not(_) | TypedKind::Compare(_, _, _) => parts_test(e, x, c),
        TypedKind::Both(_, _) | TypedKind::Either(_, _) => parts_test(e, x, c),
        _ => {
            let around = c.begin_list();
            let operand = value(e, x, c, true)?;
            let steps = c.end_list(around);
            Ok(Test::One(steps, not_zero(is_int(x.types(), e.of), operand)))
        }
    }
}

fn not_zero(is_int: bool, operand: Operand) -> Cond {
    if is_int {
        Cond::Ints(Cmp::Ne, operand, Operand::Const(0))
    } else {
        Cond::NotNull(register_of(operand))
    }
}

fn boxed(alloc: Global, test: Test) -> Result<Box<Test>, AllocError> {
    Ok(Box::new(alloc, test)?)
}

/// The same of an expression with one of these operators.
#[cycle(values)]
pub(crate) fn parts_test(e: &TypedExpr, x: Context<'_>, c: &mut Code) -> Result<Test, FrontFault> {
    match &e.kind {
        TypedKind::Not(a) => {
            let inner = test(a, x, c)?;
            Ok(Test::Not(boxed(x.alloc, inner)?))
        }
        TypedKind::Both(a, b) => {
            let first = test(a, x, c)?;
            let first = boxed(x.alloc, first)?;
            let second = test(b, x, c)?;
            Ok(Test::Both(first, boxed(x.alloc, second)?))
        }
        TypedKind::Either(a, b) => {
            let first = test(a, x, c)?;
            let first = boxed(x.alloc, first)?;
            let second = test(b, x, c)?;
            Ok(Test::Either(first, boxed(x.alloc, second)?))
        }
        TypedKind::Compare(op, a, b) => {
            let around = c.begin_list();
            let left = kept(a, x, c, b)?;
            let right = value(b, x, c, true)?;
            let steps = c.end_list(around);
            Ok(Test::One(steps, comparison(is_int(x.types(), a.of), *op, left, right)))
        }
        _ => Ok(Test::One(
            StepList::new(x.alloc),
            Cond::Ints(Cmp::Ne, NOTHING, NOTHING),
        )),
    }
}

fn comparison(is_int: bool, op: Cmp, left: Operand, right: Operand) -> Cond {
    if is_int {
        Cond::Ints(op, left, right)
    } else {
        Cond::Pointers(op, register_of(left), register_of(right))
    }
}
