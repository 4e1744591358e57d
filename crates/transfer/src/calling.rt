use crate::known::Known;
use crate::leaves::unknown_in;
use crate::lookups::Lookups;
use crate::parts::{FUNCTION, callee_part, set_of};
use crate::results::{ResultBound, Side};
use c_values::Cmp;
use core_ir::{Callee, CalleePart, Operand};
use intervals::Interval;
use std::alloc::Global;
use sv_base::NoMemory;
use var_state::{Patch, Running};

/// A call in a body: the register of its result, if that is used, and its arguments.
#[derive(Clone, Copy)]
pub(crate) struct CallSite<'a> {
    pub(crate) to: Option<u32>,
    pub(crate) args: &'a [Operand],
}

/// A function of a set, where it has the called type.
pub(crate) fn called<'a>(facts: Known<'a>, target: u32, kind: u32) -> Option<&'a CalleePart> {
    if target < FUNCTION {
        return None;
    }
    match callee_part(facts, target - FUNCTION) {
        Some(part) => {
            if part.kind == kind {
                return Some(part);
            }
            return None;
        }
        None => return None,
    }
}

// An external function gives any number of its kind.
fn call_external(alloc: Global, run: &mut Running, call: CallSite<'_>) -> Result<(), NoMemory> {
    match call.to {
        Some(to) => {
            let i = unknown_in(run.state().range(to));
            run.set_interval(alloc, to, Some(i))
        }
        None => Ok(()),
    }
}

// The argument that a side names; an argument in the register that the call sets is passed over.
fn argument(call: CallSite<'_>, side: Side) -> Option<u32> {
    match side {
        Side::Argument(r) => {
            let register = match call.args.get(r as usize) {
                Some(Operand::Reg(register)) => *register,
                _ => return None,
            };
            if Some(register) == call.to {
                return None;
            }
            return Some(register);
        }
        Side::Given => return call.to,
        Side::Zero => return None,
    }
}

fn add_bound(
    alloc: Global,
    run: &mut Running,
    call: CallSite<'_>,
    bound: ResultBound,
) -> Result<(), NoMemory> {
    match (bound.from, bound.to) {
        (Side::Zero, to) => match argument(call, to) {
            Some(r) => run.assume(alloc, Cmp::Le, Operand::Reg(r), Operand::Const(bound.c)),
            None => Ok(()),
        },
        (from, Side::Zero) => match argument(call, from) {
            Some(r) => {
                let least = Operand::Const(0i128.saturating_sub(bound.c));
                run.assume(alloc, Cmp::Ge, Operand::Reg(r), least)
            }
            None => Ok(()),
        },
        (from, to) => match (argument(call, from), argument(call, to)) {
            (Some(a), Some(b)) => run.add_difference(alloc, b, a, bound.c),
            _ => Ok(()),
        },
    }
}

fn speaks_of_result(bound: ResultBound) -> bool {
    bound.from == Side::Given || bound.to == Side::Given
}

// The bounds of the arguments alone, or those of the result and an argument.
fn add_bounds(
    alloc: Global,
    run: &mut Running,
    call: CallSite<'_>,
    bounds: &[ResultBound],
    of_result: bool,
) -> Result<(), NoMemory> {
    for bound in bounds {
        if speaks_of_result(*bound) == of_result {
            add_bound(alloc, run, call, *bound)?;
        }
    }
    Ok(())
}

// The least and the greatest number of the result.
fn given(bounds: &[ResultBound], range: Interval) -> Interval {
    let mut given = range;
    for bound in bounds {
        match (bound.from, bound.to) {
            (Side::Zero, Side::Given) => given.high = bound.c,
            (Side::Given, Side::Zero) => given.low = 0i128.saturating_sub(bound.c),
            _ => {}
        }
    }
    given
}

// What holds when a function has returned: the bounds of its entry registers hold of the arguments, and those of its result of
// the register that it sets.
fn return_from(
    alloc: Global,
    run: &mut Running,
    call: CallSite<'_>,
    part: &CalleePart,
    bounds: &[ResultBound],
) -> Result<(), NoMemory> {
    let nothing_set = CallSite {
        to: None,
        args: call.args,
    };
    add_bounds(alloc, run, nothing_set, bounds, false)?;
    match (call.to, part.result_register) {
        (Some(to), Some(_)) => {
            let i = given(bounds, run.state().range(to));
            run.set_interval(alloc, to, Some(i))?;
            add_bounds(alloc, run, call, bounds, true)
        }
        _ => Ok(()),
    }
}

// A call that does not return. In a rising round it counts as giving 0.
fn do_not_return(
    alloc: Global,
    run: &mut Running,
    call: CallSite<'_>,
    part: &CalleePart,
    rising: bool,
) -> Result<(), NoMemory> {
    if !rising {
        run.set_bottom();
        return Ok(());
    }
    match (call.to, part.result_register) {
        (Some(to), Some(_)) => { run.set_interval(alloc, to, Some(Interval { low: 0, high: 0 })) }
        _ => Ok(()),
    }
}

fn call_part(
    alloc: Global,
    run: &mut Running,
    call: CallSite<'_>,
    part: &CalleePart,
    rising: bool,
    lookups: &mut Lookups,
) -> Result<(), NoMemory> {
    if part.external {
        return call_external(alloc, run, call);
    }
    lookups.prepare(alloc, part)?;
    match lookups.result(part.callee) {
        Some(bounds) => return_from(alloc, run, call, part, bounds),
        None => do_not_return(alloc, run, call, part, rising),
    }
}

// A call of each function of a set that has the called type; the states after them are joined.
fn call_set(
    alloc: Global,
    run: &mut Running,
    call: CallSite<'_>,
    set: &[u32],
    kind: u32,
    facts: Known<'_>,
    lookups: &mut Lookups,
) -> Result<(), NoMemory> {
    let mark = run.mark()?;
    let mut ends = Patch::bottom(alloc);
    for target in set {
        if let Some(part) = called(facts, *target, kind) {
            call_part(alloc, run, call, part, facts.rising, lookups)?;
            run.leave(alloc, mark, &mut ends)?;
            run.undo();
        }
    }
    run.set_bottom();
    run.join(alloc, ends)?;
    run.release();
    Ok(())
}

/// What a call makes of the state.
pub(crate) fn call(
    alloc: Global,
    run: &mut Running,
    call: CallSite<'_>,
    callee: Callee,
    facts: Known<'_>,
    lookups: &mut Lookups,
) -> Result<(), NoMemory> {
    match callee {
        Callee::Direct(g) => match callee_part(facts, g.0) {
            Some(part) => call_part(alloc, run, call, part, facts.rising, lookups),
            None => call_external(alloc, run, call),
        },
        Callee::External(_) => call_external(alloc, run, call),
        Callee::Through { register, kind } => {
            let set = set_of(facts, register);
            call_set(alloc, run, call, set, kind, facts, lookups)
        }
    }
}
