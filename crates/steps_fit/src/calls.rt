ghost use Rattle.std.specs.Prelude.{◌≡◌, IsTrue};
ghost use Rattle.core_ir.specs.Programs.{function_of};
ghost use Rattle.core_ir.specs.StepsFit.{ResultFits, ReturnFits, is_register};

use crate::models::{model_at, result_leaf};
use crate::operands::{is_operand, is_pointer, leaf_at, may_hold, may_take};
use crate::setting::Setting;
use core_ir::{Callee, Function, Operand};

// Whether arguments may stand in the entry registers of a function, one for each.
fn arguments_fit(f: &Function, g: &Function, args: &[Operand]) -> bool {
    let mut i = 0u32;
    for a in args {
        if !may_take(f, leaf_at(g, i), *a) {
            return false;
        }
        i = match i.checked_add(1) {
            Some(next) => next,
            None => return false,
        };
    }
    i == g.parameters
}

fn result_fits(f: &Function, g: &Function, to: Option<u32>) -> bool
    ensures { IsTrue result → ResultFits (function_of f.now) (function_of g.now) to }
{
    match to {
        None => true,
        Some(to) => may_hold(leaf_at(f, to), result_leaf(g)),
    }
}

fn calls_function(f: &Function, g: &Function, to: Option<u32>, args: &[Operand]) -> bool {
    arguments_fit(f, g, args) && result_fits(f, g, to)
}

fn calls_direct(x: &Setting<'_>, f: &Function, to: Option<u32>, args: &[Operand], g: u32) -> bool {
    match x.core.functions.get(g as usize) {
        None => false,
        Some(callee) => calls_function(f, callee, to, args),
    }
}

// A call fits each function of a type where it fits the one that stands for them.
fn calls_through(
    x: &Setting<'_>,
    f: &Function,
    to: Option<u32>,
    args: &[Operand],
    kind: u32,
) -> bool {
    match model_at(x.models, &x.core.functions, kind) {
        None => true,
        Some(model) => calls_function(f, model, to, args),
    }
}

fn callee_fits(
    x: &Setting<'_>,
    f: &Function,
    to: Option<u32>,
    args: &[Operand],
    callee: Callee,
) -> bool {
    match callee {
        Callee::Direct(g) => calls_direct(x, f, to, args, g.0),
        Callee::Through { register, kind } => {
            is_pointer(f, register) && calls_through(x, f, to, args, kind)
        }
        Callee::External(e) => (e as usize) < x.core.externals.len(),
    }
}

fn operands_fit(f: &Function, args: &[Operand]) -> bool {
    for a in args {
        if !is_operand(f, *a) {
            return false;
        }
    }
    true
}

fn is_register(r: u32, a: Operand) -> bool
    ensures { result ≡ is_register r a }
{
    match a {
        Operand::Reg(q) => q == r,
        Operand::Const(_) => false,
    }
}

fn is_no_argument(r: u32, args: &[Operand]) -> bool {
    for a in args {
        if is_register(r, *a) {
            return false;
        }
    }
    true
}

fn result_kept(f: &Function, args: &[Operand], to: Option<u32>) -> bool {
    match to {
        None => true,
        Some(to) => {
            f.parameters <= to && (to as usize) < f.registers.len() && is_no_argument(to, args)
        }
    }
}

/// Whether a call fits: its arguments, the register of its result, and what it may call.
pub(crate) fn call_fits(
    x: &Setting<'_>,
    f: &Function,
    to: Option<u32>,
    callee: Callee,
    args: &[Operand],
) -> bool {
    operands_fit(f, args) && result_kept(f, args, to) && callee_fits(x, f, to, args, callee)
}

/// Whether a value may be returned.
pub(crate) fn return_fits(f: &Function, value: Option<Operand>) -> bool
    ensures { IsTrue result → ReturnFits (function_of f.now) value }
{
    match value {
        None => true,
        Some(a) => may_take(f, result_leaf(f), a),
    }
}
