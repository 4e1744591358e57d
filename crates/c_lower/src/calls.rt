use crate::code::Code;
use crate::context::{Context, NOTHING, is_function, is_void, leaf_of, register_of, target_of};
use crate::uses::assigned_object;
use crate::values::{copied, value};
use c_typed::{TypeTable, TypedExpr, TypedKind};
use c_walks::push_parts;
use core_ir::{Callee, Operand, Step};
use std::collections::BTreeMap;
use sv_base::{FrontFault, FuncId, NoMemory};

// Under a pointer to a function, what `*` and `&` give again.
fn under_stars<'a>(types: &TypeTable, f: &'a TypedExpr) -> &'a TypedExpr {
    match &f.kind {
        TypedKind::Decay(a) | TypedKind::AddressOf(a) => match &a.kind {
            TypedKind::Deref(p, _) => {
                if is_function(types, target_of(types, f.of)) {
                    return under_stars(types, p);
                }
                f
            }
            _ => f,
        },
        _ => f,
    }
}

// The number of the function that the called expression names, where it names one.
fn function_number(types: &TypeTable, f: &TypedExpr) -> Option<u32> {
    match &under_stars(types, f).kind {
        TypedKind::Decay(a) | TypedKind::AddressOf(a) => match a.kind {
            TypedKind::Function(number) => Some(number),
            _ => None,
        },
        _ => None,
    }
}

// The defined functions come before the external ones.
fn callee_of(x: Context<'_>, number: u32) -> Callee {
    let defined = u32::try_from(x.typed.functions.len()).unwrap_or(u32::MAX);
    match number.checked_sub(defined) {
        None => Callee::Direct(FuncId(number)),
        Some(external) => Callee::External(external),
    }
}

// By object, the last one of the arguments that assigns it.
type LastAssigned = BTreeMap<u32, u32>;

fn note_assigned(
    x: Context<'_>,
    last: &mut LastAssigned,
    e: &TypedExpr,
    number: u32,
) -> Result<(), NoMemory> {
    let mut left = Vec::new(x.alloc);
    left.push(e)?;
    for _ in 0..u64::MAX {
        let Some(e) = left.pop() else {
            break;
        };
        if let Some(object) = assigned_object(e) {
            last.insert(object, number)?;
        }
        push_parts(&mut left, e)?;
    }
    Ok(())
}

// Arguments count from 1.
fn last_assigned(x: Context<'_>, args: &[TypedExpr]) -> Result<LastAssigned, NoMemory> {
    let mut last = BTreeMap::new(x.alloc);
    if !x.plan.uses.any_assigned {
        return Ok(last);
    }
    let mut number = 1u32;
    for arg in args {
        note_assigned(x, &mut last, arg, number)?;
        number = number.checked_add(1).ok_or(NoMemory)?;
    }
    Ok(last)
}

// An operand of a call, copied where a later argument assigns its register.
fn hold_before(
    x: Context<'_>,
    c: &mut Code,
    a: Operand,
    last: &LastAssigned,
    number: u32,
) -> Result<Operand, FrontFault> {
    let Operand::Reg(r) = a else {
        return Ok(a);
    };
    if !c.is_named(r) {
        return Ok(a);
    }
    match x.plan.object_in(r) {
        None => Ok(a),
        Some(object) => match last.get(&object) {
            None => Ok(a),
            Some(assigning) => {
                if *assigning <= number {
                    return Ok(a);
                }
                copied(c, r)
            }
        },
    }
}

/// A call (ISO/IEC 9899:1999, 6.5.2.2): the called function, then the arguments.
#[cycle(values)]
pub(crate) fn call(
    e: &TypedExpr,
    x: Context<'_>,
    c: &mut Code,
    used: bool,
) -> Result<Operand, FrontFault> {
    let TypedKind::Call(f, args) = &e.kind else {
        return Ok(NOTHING);
    };
    let last = last_assigned(x, args)?;
    let callee = match function_number(x.types(), f) {
        Some(number) => callee_of(x, number),
        None => {
            let pointer = value(f, x, c, true)?;
            let held = hold_before(x, c, pointer, &last, 0)?;
            let class = x.types().class(target_of(x.types(), f.of));
            Callee::Through {
                register: register_of(held),
                kind: c.numbers.kinds.number(class)?,
            }
        }
    };
    let operands = arguments(args, x, c, &last)?;
    let to = if used && !is_void(x.types(), e.of) {
        Some(c.new_temporary(leaf_of(x.types(), e.of))?)
    } else {
        None
    };
    c.step(Step::Call {
        to,
        callee,
        args: operands,
    })?;
    match to {
        None => Ok(NOTHING),
        Some(to) => Ok(Operand::Reg(to)),
    }
}

#[cycle(values)]
fn arguments(
    args: &[TypedExpr],
    x: Context<'_>,
    c: &mut Code,
    last: &LastAssigned,
) -> Result<Vec<Operand>, FrontFault> {
    let mut operands = Vec::new(x.alloc);
    let mut number = 1u32;
    for arg in args {
        let operand = value(arg, x, c, true)?;
        operands.push(hold_before(x, c, operand, last, number)?)?;
        number = number.checked_add(1).ok_or(NoMemory)?;
    }
    Ok(operands)
}
