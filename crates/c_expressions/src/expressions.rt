ghost use Rattle.c_names.specs.Knot.{IsCallable};

use crate::leaves::{name, number, text};
use c_faults::{Spot, Stop, refuse};
use c_forms::{
    address_of, argument, assign, binary, both, bump, call, callee, cast, choose, comma, compare,
    condition, counted, deref, either, member, modifiable, negate, plus, record_of, size_of,
    subscript, unary, update,
};
use c_names::Checker;
use c_tree::{Expr, ExprKind, TypeName};
use c_typed::{HeldExpr, HeldExprs, TypeId, TypeKind};
use c_values::IntType;
use sv_base::{SiteId, faults};

/// Checks expressions over a function that reads the type names inside them.
#[derive(Clone, Copy)]
pub struct Expressions<F> {
    /// How deep the type names inside may still nest.
    pub depth: usize,
    /// The type that a type name stands for (ISO/IEC 9899:1999, 6.7.6).
    pub type_name: F,
}

fn spot_of(e: &Expr) -> Spot {
    Spot {
        place: e.place,
        start: e.start,
    }
}

// What a pointer leads to. A function is no site.
fn led(
    c: &mut Checker,
    pointer: HeldExpr,
    slot: Option<SiteId>,
    at: Spot,
) -> Result<HeldExpr, Stop> {
    let led = deref(&c.types, pointer, slot, true, at)?;
    if let TypeKind::Function(_) = c.types.table.kind(led.of()) {
        c.leave_slot(slot);
    }
    Ok(led)
}

// The member of this name.
fn selected(c: &mut Checker, whole: HeldExpr, name: u32, at: Spot) -> Result<HeldExpr, Stop> {
    let record = record_of(&c.types, &whole, at)?;
    match c.member(record, name) {
        Some(position) => member(&mut c.types, whole, record, position, at),
        None => refuse(faults::UNKNOWN_MEMBER, at),
    }
}

impl<F: Fn(&TypeName, usize, &mut Checker) -> Result<TypeId, Stop>> Expressions<F> {
    fn named(&self, name: &TypeName, c: &mut Checker) -> Result<TypeId, Stop>
        requires { IsCallable self.now.depth (F.pre self.now.type_name) }
    {
        (self.type_name)(name, self.depth, c)
    }

    /// An expression. An lvalue stays one, and an array or a function is no pointer yet.
    #[cycle(expressions)]
    pub fn expression(&self, e: &Expr, c: &mut Checker) -> Result<HeldExpr, Stop>
        requires { IsCallable self.now.depth (F.pre self.now.type_name) }
    {
        let at = spot_of(e);
        match &e.kind {
            ExprKind::Name(n) => name(c, *n, at),
            ExprKind::Number(value, kind) => number(c, *value as i128, *kind, at),
            ExprKind::Character(value) => number(c, *value as i128, IntType::Int, at),
            ExprKind::Text(bytes) => text(c, bytes.as_slice(), at),
            ExprKind::Binary(op, a, b) => {
                let a = self.value(a.get(), c)?;
                let b = self.value(b.get(), c)?;
                binary(&c.types, *op, a, b, at)
            }
            ExprKind::Compare(op, a, b) => {
                let a = self.value(a.get(), c)?;
                let b = self.value(b.get(), c)?;
                compare(&c.types, *op, a, b, at)
            }
            ExprKind::Both(a, b) => {
                let a = self.value(a.get(), c)?;
                let b = self.value(b.get(), c)?;
                both(&c.types, a, b, at)
            }
            ExprKind::Either(a, b) => {
                let a = self.value(a.get(), c)?;
                let b = self.value(b.get(), c)?;
                either(&c.types, a, b, at)
            }
            ExprKind::Comma(a, b) => {
                let a = self.value(a.get(), c)?;
                let b = self.value(b.get(), c)?;
                comma(&c.types, a, b, at)
            }
            ExprKind::Choose(_, _, _) | ExprKind::Assign(_, _, _) => self.other(e, c),
            ExprKind::Index(_, _)
            | ExprKind::Call(_, _)
            | ExprKind::Member(_, _)
            | ExprKind::Arrow(_, _)
            | ExprKind::Bump { .. } => self.postfix(e, c),
            _ => self.prefix(e, c),
        }
    }

    /// An expression as a value (6.3.2.1).
    #[cycle(expressions)]
    pub fn value(&self, e: &Expr, c: &mut Checker) -> Result<HeldExpr, Stop>
        requires { IsCallable self.now.depth (F.pre self.now.type_name) }
    {
        let expr = self.expression(e, c)?;
        c_forms::value(&mut c.types, expr)
    }

    // 6.5.15 and 6.5.16
    #[cycle(expressions)]
    fn other(&self, e: &Expr, c: &mut Checker) -> Result<HeldExpr, Stop>
        requires { IsCallable self.now.depth (F.pre self.now.type_name) }
    {
        let at = spot_of(e);
        match &e.kind {
            ExprKind::Choose(t, a, b) => {
                let t = self.value(t.get(), c)?;
                condition(&c.types, &t, at)?;
                let a = self.value(a.get(), c)?;
                let b = self.value(b.get(), c)?;
                choose(&c.types, t, a, b, at)
            }
            ExprKind::Assign(op, target, by) => {
                let target = self.expression(target.get(), c)?;
                modifiable(&c.types, &target, at)?;
                let by = self.value(by.get(), c)?;
                match op {
                    Some(op) => update(&c.types, *op, target, by, false, at),
                    None => assign(&c.types, target, by, at),
                }
            }
            _ => refuse(faults::OPERANDS, at),
        }
    }

    // 6.5.2 and 6.5.3.1
    #[cycle(expressions)]
    fn postfix(&self, e: &Expr, c: &mut Checker) -> Result<HeldExpr, Stop>
        requires { IsCallable self.now.depth (F.pre self.now.type_name) }
    {
        let at = spot_of(e);
        match &e.kind {
            ExprKind::Index(a, b) => {
                let a = self.value(a.get(), c)?;
                let slot = c.take_slot(e.place)?;
                let b = self.value(b.get(), c)?;
                let pointer = subscript(&c.types, a, b, at)?;
                led(c, pointer, slot, at)
            }
            ExprKind::Call(function, list) => {
                let function = self.value(function.get(), c)?;
                let of = callee(&c.types, &function, at)?;
                counted(&c.types, of, list.len(), at)?;
                let list = self.arguments(list.as_slice(), of, c)?;
                call(&c.types, function, of, list, at)
            }
            ExprKind::Member(whole, name) => {
                let whole = self.expression(whole.get(), c)?;
                selected(c, whole, *name, at)
            }
            ExprKind::Arrow(pointer, name) => {
                let pointer = self.value(pointer.get(), c)?;
                let slot = c.take_slot(e.place)?;
                let whole = led(c, pointer, slot, at)?;
                selected(c, whole, *name, at)
            }
            ExprKind::Bump { up, before, of } => {
                let target = self.expression(of.get(), c)?;
                bump(&c.types, target, *up, *before, at)
            }
            _ => refuse(faults::OPERANDS, at),
        }
    }

    // 6.5.2.2
    #[cycle(expressions)]
    fn arguments(&self, list: &[Expr], of: TypeId, c: &mut Checker) -> Result<HeldExprs, Stop>
        requires { IsCallable self.now.depth (F.pre self.now.type_name) }
    {
        let mut found = HeldExprs::new(c.alloc);
        for (number, e) in list.iter().enumerate() {
            let value = self.value(e, c)?;
            let passed = argument(&c.types, of, number, value, spot_of(e))?;
            found.push(passed)?;
        }
        Ok(found)
    }

    // 6.5.3 and 6.5.4
    #[cycle(expressions)]
    fn prefix(&self, e: &Expr, c: &mut Checker) -> Result<HeldExpr, Stop>
        requires { IsCallable self.now.depth (F.pre self.now.type_name) }
    {
        let at = spot_of(e);
        match &e.kind {
            ExprKind::AddressOf(a) => {
                let a = self.bare(a.get(), c)?;
                address_of(&mut c.types, a, at)
            }
            ExprKind::Deref(a) => {
                let slot = c.take_slot(e.place)?;
                let pointer = self.value(a.get(), c)?;
                led(c, pointer, slot, at)
            }
            ExprKind::Plus(a) => {
                let a = self.value(a.get(), c)?;
                plus(&c.types, a, at)
            }
            ExprKind::Unary(op, a) => {
                let a = self.value(a.get(), c)?;
                unary(&c.types, *op, a, at)
            }
            ExprKind::Negate(a) => {
                let a = self.value(a.get(), c)?;
                negate(&c.types, a, at)
            }
            ExprKind::SizeOf(a) => {
                c.begin_unevaluated()?;
                let a = self.bare(a.get(), c)?;
                c.end_unevaluated();
                size_of(&c.types, a.of(), at)
            }
            ExprKind::SizeOfName(name) => {
                c.begin_unevaluated()?;
                let of = self.named(name, c)?;
                c.end_unevaluated();
                size_of(&c.types, of, at)
            }
            ExprKind::Cast(name, a) => {
                let to = self.named(name, c)?;
                let a = self.value(a.get(), c)?;
                cast(&c.types, a, to, at)
            }
            _ => refuse(faults::OPERANDS, at),
        }
    }

    // The direct operand of `&` or `sizeof`. A dereference there is not done, so it is no site and needs no size.
    #[cycle(expressions)]
    fn bare(&self, e: &Expr, c: &mut Checker) -> Result<HeldExpr, Stop>
        requires { IsCallable self.now.depth (F.pre self.now.type_name) }
    {
        let at = spot_of(e);
        match &e.kind {
            ExprKind::Deref(a) => {
                let pointer = self.value(a.get(), c)?;
                deref(&c.types, pointer, None, false, at)
            }
            ExprKind::Index(a, b) => {
                let a = self.value(a.get(), c)?;
                let b = self.value(b.get(), c)?;
                let pointer = subscript(&c.types, a, b, at)?;
                deref(&c.types, pointer, None, false, at)
            }
            _ => self.expression(e, c),
        }
    }
}
