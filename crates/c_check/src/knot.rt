//! Where expressions and declarators meet: each checks what stands inside it by the other, one level deeper.

use c_declarators::{Declarators, Declared, Least, Specifiers, head_spot, spot_of, word_spot};
use c_expressions::Expressions;
use c_faults::{Spot, Stop, refuse};
use c_names::Checker;
use c_tree::{Declarator, Expr, SpecWord, TypeName};
use c_typed::{HeldExpr, TypeId};
use sv_base::faults;

/// How often expressions, type names and structures may stand inside one another. Each is a node of the tree, of which no
/// more than 256 nest.
const DEPTH: usize = 600;

#[cycle(knot)]
fn type_name(n: &TypeName, depth: usize, checker: &mut Checker) -> Result<TypeId, Stop> {
    match depth.checked_sub(1) {
        Some(depth) => Declarators {
            depth,
            value: value_inside,
            record: record_inside,
        }
        .named_type(n, checker),
        None => refuse(faults::TOO_DEEP, head_spot(n.head.as_slice())),
    }
}

#[cycle(knot)]
fn value_inside(e: &Expr, depth: usize, checker: &mut Checker) -> Result<HeldExpr, Stop> {
    match depth.checked_sub(1) {
        Some(depth) => Expressions { depth, type_name }.value(e, checker),
        None => refuse(faults::TOO_DEEP, spot_of(e)),
    }
}

#[cycle(knot)]
fn record_inside(word: &SpecWord, depth: usize, checker: &mut Checker) -> Result<TypeId, Stop> {
    match depth.checked_sub(1) {
        Some(depth) => Declarators {
            depth,
            value: value_inside,
            record: record_inside,
        }
        .whole_record(word, checker),
        None => refuse(faults::TOO_DEEP, word_spot(word)),
    }
}

/// The value of an expression (ISO/IEC 9899:1999, 6.5).
pub fn value_of(e: &Expr, checker: &mut Checker) -> Result<HeldExpr, Stop> {
    value_inside(e, DEPTH, checker)
}

/// The value of an expression that has to be an integer constant (6.6).
pub fn required(e: &Expr, checker: &mut Checker) -> Result<i128, Stop> {
    Declarators {
        depth: DEPTH,
        value: value_inside,
        record: record_inside,
    }
    .required(e, checker)
}

/// What the specifiers of a declaration say (6.7). `alone` says that it has no declarator.
pub fn specifiers(
    head: &[SpecWord],
    alone: bool,
    checker: &mut Checker,
) -> Result<Specifiers, Stop> {
    Declarators {
        depth: DEPTH,
        value: value_inside,
        record: record_inside,
    }
    .specifiers(head, true, alone, checker)
}

/// What a declarator makes of a type (6.7.5). Its faults are put to others. `head` is where its specifiers begin.
pub fn declarator(
    base: TypeId,
    d: &Declarator,
    head: Spot,
    least: &mut Least,
    checker: &mut Checker,
) -> Result<Declared, Stop> {
    Declarators {
        depth: DEPTH,
        value: value_inside,
        record: record_inside,
    }
    .declarator(base, d, head, least, checker)
}
