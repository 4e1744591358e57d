//! Expressions, in the order of their evaluation (ISO/IEC 9899:1999, 6.5), operands from left to right.

use crate::branches::{Sides, build, comes_other_first};
use crate::calls::call;
use crate::code::Code;
use crate::conditions::{parts_test, test};
use crate::context::{
    Context, NOTHING, element_size, int_kind, is_function, is_int, is_pointer, is_record, is_void,
    leaf_of, register_of, size_of, target_of,
};
use crate::uses::assigns;
use c_typed::{TypeId, TypedExpr, TypedKind};
use c_values::{IntType, Op, convert};
use core_ir::{Leaf, Operand, Step, StepList, Value};
use sv_base::FrontFault;

/// The operand that an expression gives. Where its value is not used, or it has none, the operand says nothing.
#[cycle(values)]
pub(crate) fn value(
    e: &TypedExpr,
    x: Context<'_>,
    c: &mut Code,
    used: bool,
) -> Result<Operand, FrontFault> {
    match &e.kind {
        TypedKind::Constant(number) => Ok(Operand::Const(*number)),
        TypedKind::Null => null(c, used),
        TypedKind::Linked(_) | TypedKind::Function(_) => Ok(NOTHING),
        TypedKind::Local(_) | TypedKind::Static(_) => unused_place(e, x, c),
        TypedKind::Deref(_, _) | TypedKind::Member(_, _) => unused_place(e, x, c),
        TypedKind::Read(_) => read(e, x, c),
        TypedKind::Decay(_) => decay(e, x, c, used),
        TypedKind::AddressOf(_) => address_of(e, x, c, used),
        TypedKind::Convert(_) => conversion(e, x, c),
        TypedKind::Unary(op, a) => {
            let operand = value(a, x, c, true)?;
            let kind = int_kind(x.types(), e.of);
            c.put(Leaf::Int(kind), Value::Unary(*op, kind, operand))
        }
        TypedKind::Binary(_, _, _) => binary(e, x, c),
        TypedKind::Sum { .. } => sum(e, x, c),
        TypedKind::Minus(_, _) => minus(e, x, c),
        TypedKind::Compare(_, _, _) | TypedKind::Not(_) => truth(e, x, c),
        TypedKind::Both(_, _) | TypedKind::Either(_, _) => truth(e, x, c),
        TypedKind::Choose(_, _, _) => choose(e, x, c, used),
        TypedKind::Assign(_, _) => assign(e, x, c),
        TypedKind::Update { .. } => update(e, x, c, used),
        TypedKind::Call(_, _) => call(e, x, c, used),
        TypedKind::Comma(a, b) => {
            value(a, x, c, false)?;
            value(b, x, c, used)
        }
    }
}

fn null(c: &mut Code, used: bool) -> Result<Operand, FrontFault> {
    if !used {
        return Ok(NOTHING);
    }
    c.put(Leaf::Pointer, Value::Null)
}

/// An operand that is evaluated before another expression: where that assigns its register, it is copied first.
pub(crate) fn hold(
    x: Context<'_>,
    c: &mut Code,
    a: Operand,
    later: &TypedExpr,
) -> Result<Operand, FrontFault> {
    let Operand::Reg(r) = a else {
        return Ok(a);
    };
    if !c.is_named(r) {
        return Ok(a);
    }
    let Some(object) = x.plan.object_in(r) else {
        return Ok(a);
    };
    if !x.plan.uses.assigned.is_marked(object) || !assigns(x.alloc, later, object)? {
        return Ok(a);
    }
    copied(c, r)
}

/// A copy of a register.
pub(crate) fn copied(c: &mut Code, r: u32) -> Result<Operand, FrontFault> {
    let leaf = c.leaf(r);
    c.put(leaf, Value::Copy(Operand::Reg(r)))
}

// The value of an operand that is evaluated before another expression.
#[cycle(values)]
pub(crate) fn kept(
    e: &TypedExpr,
    x: Context<'_>,
    c: &mut Code,
    later: &TypedExpr,
) -> Result<Operand, FrontFault> {
    let a = value(e, x, c, true)?;
    hold(x, c, a, later)
}

// The value of a structure or an array that is not used: its sites are visited.
#[cycle(values)]
fn unused_place(e: &TypedExpr, x: Context<'_>, c: &mut Code) -> Result<Operand, FrontFault> {
    place(e, x, c, None)?;
    Ok(NOTHING)
}

/// The register with the address of an lvalue; `later` is evaluated after it and before its use.
#[cycle(values)]
pub(crate) fn place(
    e: &TypedExpr,
    x: Context<'_>,
    c: &mut Code,
    later: Option<&TypedExpr>,
) -> Result<u32, FrontFault> {
    match &e.kind {
        TypedKind::Local(object) => c.put_pointer(Value::Address(x.region(*object))),
        TypedKind::Static(object) => {
            let class = x.objects.whole_region(*object);
            c.put_pointer(Value::Address(class))
        }
        TypedKind::Member(b, position) => {
            let address = place(b, x, c, None)?;
            sub_object(x, c, address, b.of, Some(*position))
        }
        TypedKind::Deref(p, site) => {
            let pointer = value(p, x, c, true)?;
            let held = match later {
                None => pointer,
                Some(later) => hold(x, c, pointer, later)?,
            };
            let address = register_of(held);
            if let Some(site) = site {
                c.step(Step::Check {
                    site: *site,
                    address,
                    width: size_of(x.types(), e.of),
                })?;
            }
            Ok(address)
        }
        TypedKind::Comma(a, b) => {
            value(a, x, c, false)?;
            place(b, x, c, later)
        }
        _ => Ok(0),
    }
}

// The sub-object of a type, or a member of it, at an address.
fn sub_object(
    x: Context<'_>,
    c: &mut Code,
    address: u32,
    of: TypeId,
    member: Option<u32>,
) -> Result<u32, FrontFault> {
    let to = c.new_temporary(Leaf::Pointer)?;
    let part = c.numbers.part(x.types().class(of), member)?;
    c.step(Step::Sub { to, address, part })?;
    Ok(to)
}

// The value of an lvalue (6.3.2.1).
#[cycle(values)]
fn read(e: &TypedExpr, x: Context<'_>, c: &mut Code) -> Result<Operand, FrontFault> {
    let TypedKind::Read(from) = &e.kind else {
        return Ok(NOTHING);
    };
    if let Some(r) = x.named(from) {
        return Ok(Operand::Reg(r));
    }
    let address = place(from, x, c, None)?;
    let leaf = leaf_of(x.types(), e.of);
    let to = c.new_temporary(leaf)?;
    c.step(Step::Load {
        to,
        address,
        leaf,
        volatile: x.types().is_volatile(from.of),
    })?;
    Ok(Operand::Reg(to))
}

// The pointer that an array or a function becomes (6.3.2.1).
#[cycle(values)]
fn decay(e: &TypedExpr, x: Context<'_>, c: &mut Code, used: bool) -> Result<Operand, FrontFault> {
    let TypedKind::Decay(from) = &e.kind else {
        return Ok(NOTHING);
    };
    match &from.kind {
        TypedKind::Function(number) => c.put(Leaf::Pointer, Value::Function(*number)),
        TypedKind::Deref(p, _) => {
            if is_function(x.types(), from.of) {
                return value(p, x, c, used);
            }
            let address = place(from, x, c, None)?;
            Ok(Operand::Reg(sub_object(x, c, address, from.of, None)?))
        }
        _ => Ok(Operand::Reg(place(from, x, c, None)?)),
    }
}

// `&a`, where neither operator of `&*a` is evaluated (6.5.3.2).
#[cycle(values)]
fn address_of(
    e: &TypedExpr,
    x: Context<'_>,
    c: &mut Code,
    used: bool,
) -> Result<Operand, FrontFault> {
    let TypedKind::AddressOf(a) = &e.kind else {
        return Ok(NOTHING);
    };
    match &a.kind {
        TypedKind::Function(number) => c.put(Leaf::Pointer, Value::Function(*number)),
        TypedKind::Deref(p, site) => {
            if site.is_none() {
                return value(p, x, c, used);
            }
            Ok(Operand::Reg(place(a, x, c, None)?))
        }
        _ => Ok(Operand::Reg(place(a, x, c, None)?)),
    }
}

// A conversion (6.3); of a pointer to a pointer, and to the same type, there is nothing to do.
#[cycle(values)]
fn conversion(e: &TypedExpr, x: Context<'_>, c: &mut Code) -> Result<Operand, FrontFault> {
    let TypedKind::Convert(a) = &e.kind else {
        return Ok(NOTHING);
    };
    if is_void(x.types(), e.of) {
        value(a, x, c, false)?;
        return Ok(NOTHING);
    }
    let from = value(a, x, c, true)?;
    converted(x, c, from, a.of, e.of)
}

fn converted(
    x: Context<'_>,
    c: &mut Code,
    from: Operand,
    of: TypeId,
    to: TypeId,
) -> Result<Operand, FrontFault> {
    let types = x.types();
    if is_int(types, of) {
        if is_int(types, to) {
            return number_converted(c, from, int_kind(types, of), int_kind(types, to));
        }
        return c.put(Leaf::Pointer, Value::FromInt(from));
    }
    if is_int(types, to) {
        let kind = int_kind(types, to);
        return c.put(Leaf::Int(kind), Value::ToInt(kind, register_of(from)));
    }
    Ok(from)
}

fn number_converted(
    c: &mut Code,
    from: Operand,
    of: IntType,
    to: IntType,
) -> Result<Operand, FrontFault> {
    if of == to {
        return Ok(from);
    }
    match from {
        Operand::Const(number) => Ok(Operand::Const(convert(to, number))),
        Operand::Reg(_) => c.put(Leaf::Int(to), Value::Convert(to, from)),
    }
}

#[cycle(values)]
fn binary(e: &TypedExpr, x: Context<'_>, c: &mut Code) -> Result<Operand, FrontFault> {
    let TypedKind::Binary(op, a, b) = &e.kind else {
        return Ok(NOTHING);
    };
    let left = kept(a, x, c, b)?;
    let right = value(b, x, c, true)?;
    let kind = int_kind(x.types(), e.of);
    c.put(Leaf::Int(kind), Value::Binary(*op, kind, left, right))
}

// A pointer and an integer, in the order in which they were written.
#[cycle(values)]
fn sum(e: &TypedExpr, x: Context<'_>, c: &mut Code) -> Result<Operand, FrontFault> {
    let TypedKind::Sum {
        pointer,
        index,
        minus,
        swapped,
    } = &e.kind
    else {
        return Ok(NOTHING);
    };
    let (base, index) = if *swapped {
        let held = kept(index, x, c, pointer)?;
        (value(pointer, x, c, true)?, held)
    } else {
        let held = kept(pointer, x, c, index)?;
        (held, value(index, x, c, true)?)
    };
    let size = element_size(x.types(), pointer.of, *minus);
    moved(c, register_of(base), index, size)
}

fn moved(c: &mut Code, base: u32, index: Operand, size: i64) -> Result<Operand, FrontFault> {
    let to = c.new_temporary(Leaf::Pointer)?;
    c.step(Step::Sum {
        to,
        base,
        index,
        size,
    })?;
    Ok(Operand::Reg(to))
}

#[cycle(values)]
fn minus(e: &TypedExpr, x: Context<'_>, c: &mut Code) -> Result<Operand, FrontFault> {
    let TypedKind::Minus(a, b) = &e.kind else {
        return Ok(NOTHING);
    };
    let left = kept(a, x, c, b)?;
    let right = value(b, x, c, true)?;
    let size = size_of(x.types(), target_of(x.types(), a.of));
    c.put(
        leaf_of(x.types(), e.of),
        Value::Minus {
            a: register_of(left),
            b: register_of(right),
            size,
        },
    )
}

// A condition as a value: a register that is set to 1 or 0.
#[cycle(values)]
fn truth(e: &TypedExpr, x: Context<'_>, c: &mut Code) -> Result<Operand, FrontFault> {
    let condition = parts_test(e, x, c)?;
    let to = c.new_temporary(leaf_of(x.types(), e.of))?;
    let then = one_copy(x, to, 1)?;
    let other = one_copy(x, to, 0)?;
    let steps = build(condition, x.alloc, Sides::Two, then, other)?;
    c.append(steps)?;
    Ok(Operand::Reg(to))
}

fn one_copy(x: Context<'_>, to: u32, number: i128) -> Result<StepList, FrontFault> {
    let mut steps = StepList::new(x.alloc);
    steps.push(Step::Set {
        to,
        value: Value::Copy(Operand::Const(number)),
    })?;
    Ok(steps)
}

// `a ? b : c`
#[cycle(values)]
fn choose(e: &TypedExpr, x: Context<'_>, c: &mut Code, used: bool) -> Result<Operand, FrontFault> {
    let TypedKind::Choose(cond, a, b) = &e.kind else {
        return Ok(NOTHING);
    };
    let to = if used && !is_void(x.types(), e.of) {
        Some(c.new_temporary(leaf_of(x.types(), e.of))?)
    } else {
        None
    };
    let condition = test(cond, x, c)?;
    let (then, other) = if comes_other_first(&condition) {
        let other = arm(b, x, c, to)?;
        (arm(a, x, c, to)?, other)
    } else {
        let then = arm(a, x, c, to)?;
        (then, arm(b, x, c, to)?)
    };
    let steps = build(condition, x.alloc, Sides::Two, then, other)?;
    c.append(steps)?;
    match to {
        None => Ok(NOTHING),
        Some(to) => Ok(Operand::Reg(to)),
    }
}

// One of the two values of a choice, put into the register where there is one.
#[cycle(values)]
fn arm(
    e: &TypedExpr,
    x: Context<'_>,
    c: &mut Code,
    to: Option<u32>,
) -> Result<StepList, FrontFault> {
    let around = c.begin_list();
    match to {
        None => {
            value(e, x, c, false)?;
        }
        Some(to) => {
            let operand = value(e, x, c, true)?;
            c.set(to, Value::Copy(operand))?;
        }
    }
    Ok(c.end_list(around))
}

#[cycle(values)]
fn assign(e: &TypedExpr, x: Context<'_>, c: &mut Code) -> Result<Operand, FrontFault> {
    let TypedKind::Assign(target, from) = &e.kind else {
        return Ok(NOTHING);
    };
    if is_record(x.types(), e.of) {
        let to = place(target, x, c, Some(from))?;
        let source = place(from, x, c, None)?;
        copy_object(x, c, to, source, e.of)?;
        return Ok(NOTHING);
    }
    if let Some(r) = x.named(target) {
        let operand = value(from, x, c, true)?;
        c.set(r, Value::Copy(operand))?;
        return Ok(Operand::Reg(r));
    }
    let address = place(target, x, c, Some(from))?;
    let operand = value(from, x, c, true)?;
    c.step(Step::Store {
        address,
        value: operand,
        leaf: leaf_of(x.types(), e.of),
    })?;
    Ok(operand)
}

/// Copies an object of a type, which is then one whose sub-objects the class table has.
pub(crate) fn copy_object(
    x: Context<'_>,
    c: &mut Code,
    to: u32,
    from: u32,
    of: TypeId,
) -> Result<(), FrontFault> {
    let layout = c.numbers.layouts.number(x.types().class(of))?;
    c.numbers.copied.mark(layout)?;
    c.step(Step::CopyObject { to, from, layout })
}

// `a op= b`, `++` and `--`: the address once, then the right side, the old value, the operator and the store.
#[cycle(values)]
fn update(e: &TypedExpr, x: Context<'_>, c: &mut Code, used: bool) -> Result<Operand, FrontFault> {
    let TypedKind::Update {
        op,
        target,
        by,
        through,
        old,
    } = &e.kind
    else {
        return Ok(NOTHING);
    };
    if let Some(r) = x.named(target) {
        let operand = value(by, x, c, true)?;
        return update_register(x, c, r, *op, operand, e.of, *through, *old && used, *old);
    }
    let address = place(target, x, c, Some(by))?;
    let operand = value(by, x, c, true)?;
    let leaf = leaf_of(x.types(), e.of);
    let to = c.new_temporary(leaf)?;
    c.step(Step::Load {
        to,
        address,
        leaf,
        volatile: x.types().is_volatile(target.of),
    })?;
    let before = Operand::Reg(to);
    let after = operated(x, c, *op, e.of, before, operand, *through)?;
    c.step(Step::Store {
        address,
        value: after,
        leaf,
    })?;
    Ok(if *old { before } else { after })
}

// The same for a named register. The old value is copied where it is used.
fn update_register(
    x: Context<'_>,
    c: &mut Code,
    r: u32,
    op: Op,
    by: Operand,
    of: TypeId,
    through: TypeId,
    keeps: bool,
    old: bool,
) -> Result<Operand, FrontFault> {
    let before = if keeps { copied(c, r)? } else { NOTHING };
    let after = operated(x, c, op, of, Operand::Reg(r), by, through)?;
    c.set(r, Value::Copy(after))?;
    Ok(if old { before } else { Operand::Reg(r) })
}

// The operator of an update, done in the type `through`.
fn operated(
    x: Context<'_>,
    c: &mut Code,
    op: Op,
    of: TypeId,
    before: Operand,
    by: Operand,
    through: TypeId,
) -> Result<Operand, FrontFault> {
    let types = x.types();
    if is_pointer(types, of) {
        let size = element_size(types, of, op != Op::Add);
        return moved(c, register_of(before), by, size);
    }
    let kind = int_kind(types, of);
    let inner = int_kind(types, through);
    if kind == inner {
        return c.put(Leaf::Int(kind), Value::Binary(op, kind, before, by));
    }
    let left = c.put(Leaf::Int(inner), Value::Convert(inner, before))?;
    let result = c.put(Leaf::Int(inner), Value::Binary(op, inner, left, by))?;
    c.put(Leaf::Int(kind), Value::Convert(kind, result))
}
