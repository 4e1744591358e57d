use crate::leaves::in_type;
use crate::near::near_interval;
use crate::operands::{numbers, only};
use c_values::{Cmp, IntType, Op, greatest, is_signed, least};
use core_ir::{Operand, Value};
use intervals::{
    Interval, binary, cast, compare, pointer_comparison, pointer_difference, pointer_to_int,
    range_of, unary,
};
use std::alloc::Global;
use sv_base::NoMemory;
use var_state::{Running, State};

/// Puts a value into a register.
pub(crate) fn set(alloc: Global, run: &mut Running, to: u32, value: Value) -> Result<(), NoMemory> {
    match value {
        Value::Copy(o) => copy(alloc, run, to, o),
        Value::Convert(t, o) => convert(alloc, run, to, t, o),
        Value::Binary(op, t, a, b) => operate(alloc, run, to, op, t, a, b),
        other => {
            let i = interval_of(run.state(), other);
            run.set_interval(alloc, to, i)
        }
    }
}

fn copy(alloc: Global, run: &mut Running, to: u32, o: Operand) -> Result<(), NoMemory> {
    match o {
        Operand::Reg(from) => run.set_sum(alloc, to, from, 0),
        Operand::Const(c) => run.set_interval(alloc, to, Some(near_interval(c, c))),
    }
}

// A register whose numbers are values of the type keeps them.
fn convert(
    alloc: Global,
    run: &mut Running,
    to: u32,
    t: IntType,
    o: Operand,
) -> Result<(), NoMemory> {
    let Some(i) = numbers(run.state(), o) else {
        return Ok(());
    };
    if let Operand::Reg(from) = o {
        if least(t) <= i.low && i.high <= greatest(t) {
            return run.set_sum(alloc, to, from, 0);
        }
    }
    run.set_interval(alloc, to, Some(cast(t, i)))
}

// A sum or a difference as a register and what is added to it, where one operand has one value and the other is a register.
fn as_sum(state: &State, op: Op, a: Operand, b: Operand) -> Option<(u32, i128)> {
    let left = numbers(state, a)?;
    let right = numbers(state, b)?;
    match (op, only(left), only(right)) {
        (Op::Add, _, Some(c)) => return register_plus(a, c),
        (Op::Sub, _, Some(c)) => return register_plus(a, 0i128.saturating_sub(c)),
        (Op::Add, Some(c), None) => return register_plus(b, c),
        _ => return None,
    }
}

fn register_plus(o: Operand, c: i128) -> Option<(u32, i128)> {
    match o {
        Operand::Reg(r) => return Some((r, c)),
        Operand::Const(_) => return None,
    }
}

// Whether the sum of a register and a number is their exact sum in the type wherever it is defined.
fn is_exact(state: &State, t: IntType, from: u32, c: i128) -> bool {
    if is_signed(t) {
        return true;
    }
    match state.bounds(from) {
        Some(i) => {
            return least(t) <= i.low.saturating_add(c) && i.high.saturating_add(c) <= greatest(t);
        }
        None => return false,
    }
}

fn operate(
    alloc: Global,
    run: &mut Running,
    to: u32,
    op: Op,
    t: IntType,
    a: Operand,
    b: Operand,
) -> Result<(), NoMemory> {
    if let Some((from, c)) = as_sum(run.state(), op, a, b) {
        if is_exact(run.state(), t, from, c) {
            run.set_sum(alloc, to, from, c)?;
            return cut(alloc, run, to, range_of(t));
        }
    }
    let i = result_of(run.state(), op, t, a, b);
    run.set_interval(alloc, to, i)
}

fn cut(alloc: Global, run: &mut Running, r: u32, i: Interval) -> Result<(), NoMemory> {
    run.assume(alloc, Cmp::Ge, Operand::Reg(r), Operand::Const(i.low))?;
    run.assume(alloc, Cmp::Le, Operand::Reg(r), Operand::Const(i.high))
}

fn result_of(state: &State, op: Op, t: IntType, a: Operand, b: Operand) -> Option<Interval> {
    let left = numbers(state, a)?;
    let right = numbers(state, b)?;
    match op {
        Op::Shl => return binary(Op::Shl, t, in_type(t, left), right),
        Op::Shr => return binary(Op::Shr, t, in_type(t, left), right),
        other => return binary(other, t, in_type(t, left), in_type(t, right)),
    }
}

// The numbers of a value that keeps no relation to a register; none where it is undefined at all operands.
fn interval_of(state: &State, value: Value) -> Option<Interval> {
    match value {
        Value::Unary(op, t, o) => return unary(op, t, in_type(t, numbers(state, o)?)),
        Value::Compare(c, a, b) => return comparison(state, c, a, b),
        Value::ToInt(t, _) => return Some(pointer_to_int(t)),
        Value::Minus { a, b, size } => return minus(state, a, b, size),
        Value::PointerCompare(_, _, _) => return Some(pointer_comparison()),
        _ => return Some(near_interval(0, 0)),
    }
}

fn comparison(state: &State, c: Cmp, a: Operand, b: Operand) -> Option<Interval> {
    let left = numbers(state, a)?;
    let right = numbers(state, b)?;
    Some(compare(c, left, right))
}

fn minus(state: &State, a: u32, b: u32, size: u64) -> Option<Interval> {
    let left = state.bounds(a)?;
    let right = state.bounds(b)?;
    if size == 0 {
        return Some(range_of(IntType::Int));
    }
    pointer_difference(left, right, size)
}

/// The pointer `base` plus `index` times `size` bytes.
pub(crate) fn add_to_pointer(
    alloc: Global,
    run: &mut Running,
    to: u32,
    base: u32,
    index: Operand,
    size: i64,
) -> Result<(), NoMemory> {
    let Some(i) = numbers(run.state(), index) else {
        return Ok(());
    };
    let least = i.low.saturating_mul(i128::from(size));
    let most = i.high.saturating_mul(i128::from(size));
    if i.low == i.high {
        return run.set_sum(alloc, to, base, least);
    }
    let sums = match run.state().bounds(base) {
        Some(offsets) => Some(Interval {
            low: offsets.low.saturating_add(least.min(most)),
            high: offsets.high.saturating_add(least.max(most)),
        }),
        None => None,
    };
    run.set_interval(alloc, to, sums)
}
