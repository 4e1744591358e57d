//! Whole expressions against what a second implementation answers.

use crate::expression_rows::{BEFORE, BEHIND, OTHER, ROWS};
use crate::programs::program_of;
use crate::typed_words::expression_words;
use c_front::Program;
use c_typed::{Typed, TypedExpr, TypedStatement};
use std::alloc::{AllocError, Global};
use std::test::Fail;
use sv_base::{FaultKind, FrontFault, SourceFault};

// The expression of the last statement of the first function.
fn last_expression(typed: &Typed) -> Option<&TypedExpr> {
    match &typed.functions.first()?.code {
        TypedStatement::Block { items, .. } => match items.last()? {
            TypedStatement::Plain(e) => Some(e),
            _ => None,
        },
        _ => None,
    }
}

fn shown(alloc: Global, program: &Program) -> Result<String, AllocError> {
    match last_expression(&program.typed) {
        Some(e) => expression_words(alloc, &program.typed.types, e),
        None => String::from_str(alloc, "no expression"),
    }
}

fn fault_shown(alloc: Global, fault: SourceFault) -> Result<String, AllocError> {
    let at = fault.place.col;
    match fault.kind {
        FaultKind::Unsupported(code) => format!(in alloc; "unsupported {code} @{at}"),
        FaultKind::Typing(code) => format!(in alloc; "type {code} @{at}"),
        FaultKind::Limit(code) => format!(in alloc; "limit {code} @{at}"),
        _ => String::from_str(alloc, "another fault"),
    }
}

fn answered(alloc: Global, expression: &str) -> Result<String, AllocError> {
    let text = format!(in alloc; "{BEFORE}{expression}{BEHIND}")?;
    match program_of(alloc, text.as_str(), OTHER) {
        Ok(program) => shown(alloc, &program),
        Err(FrontFault::Fault(fault)) => fault_shown(alloc, fault),
        Err(FrontFault::NoMemory) => String::from_str(alloc, "no memory"),
    }
}

#[test]
fn expressions_have_their_types(rt: HostRuntime) -> Result<(), Fail> {
    let mut rows = 0u32;
    for row in ROWS.lines() {
        let (expression, expected) = row.split_once('\t').unwrap_or((row, ""));
        let found = answered(rt.alloc(), expression)?;
        assert_eq!(rt; found.as_str(), expected, "{expression}");
        rows = rows.saturating_add(1);
    }
    assert_eq!(rt; rows, 361);
    Ok(())
}
