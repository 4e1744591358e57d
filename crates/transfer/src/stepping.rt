use crate::calling::{CallSite, call};
use crate::gathered::Gathered;
use crate::giving;
use crate::known::Known;
use crate::lookups::Lookups;
use crate::setting::{add_to_pointer, set};
use c_values::Cmp;
use core_ir::{Cond, Leaf, Operand, Step};
use intervals::Interval;
use std::alloc::Global;
use stored_bounds::leaf_range;
use sv_base::NoMemory;
use var_state::{Running, State};

// An access of `width` bytes goes on where it lies in one of the regions at its address.
fn check(
    alloc: Global,
    run: &mut Running,
    address: u32,
    width: u64,
    facts: Known<'_>,
    lookups: &mut Lookups,
) -> Result<(), NoMemory> {
    let Some((_, longest)) = lookups.lengths(facts, address)? else {
        return Ok(());
    };
    let most = i128::from(longest) - i128::from(width);
    run.assume(alloc, Cmp::Ge, Operand::Reg(address), Operand::Const(0))?;
    run.assume(alloc, Cmp::Le, Operand::Reg(address), Operand::Const(most))
}

fn load(
    alloc: Global,
    run: &mut Running,
    to: u32,
    address: u32,
    leaf: Leaf,
    facts: Known<'_>,
    lookups: &mut Lookups,
) -> Result<(), NoMemory> {
    let i = lookups.load(facts, address, leaf)?;
    run.set_interval(alloc, to, i)
}

/// What a step makes of the state. A step that has steps inside, or leaves them, changes nothing here.
pub fn after(
    alloc: Global,
    run: &mut Running,
    s: &Step,
    facts: Known<'_>,
    lookups: &mut Lookups,
) -> Result<(), NoMemory> {
    if run.state().is_bottom() {
        return Ok(());
    }
    match s {
        Step::Set { to, value } => set(alloc, run, *to, *value),
        Step::Sum {
            to,
            base,
            index,
            size,
        } => add_to_pointer(alloc, run, *to, *base, *index, *size),
        Step::Check { address, width, .. } => check(alloc, run, *address, *width, facts, lookups),
        Step::Sub { to, .. } => run.set_interval(alloc, *to, Some(Interval { low: 0, high: 0 })),
        Step::Load {
            to,
            address,
            leaf,
            volatile,
        } => {
            if *volatile {
                return run.set_interval(alloc, *to, Some(leaf_range(*leaf)));
            }
            load(alloc, run, *to, *address, *leaf, facts, lookups)
        }
        Step::Call { to, callee, args } => {
            call(
                alloc,
                run,
                CallSite { to: *to, args },
                *callee,
                facts,
                lookups,
            )
        }
        _ => Ok(()),
    }
}

/// What a step contributes in the state before it.
pub fn given(
    alloc: Global,
    state: &State,
    s: &Step,
    facts: Known<'_>,
    gathered: &mut Gathered,
) -> Result<(), NoMemory> {
    if state.is_bottom() {
        return Ok(());
    }
    match s {
        Step::Store {
            address,
            value,
            leaf,
        } => giving::store(state, *address, *value, *leaf, facts, gathered),
        Step::CopyObject { to, from, layout } => {
            giving::copy_object(alloc, facts, *to, *from, *layout, gathered)
        }
        Step::Begin {
            object,
            initialised,
        } => {
            if *initialised {
                return Ok(());
            }
            giving::begin(facts, *object, gathered)
        }
        Step::Call { callee, args, .. } => {
            giving::call(alloc, state, *callee, args, facts, gathered)
        }
        _ => Ok(()),
    }
}

/// What a step contributes, and then what it makes of the state.
pub fn step(
    alloc: Global,
    run: &mut Running,
    s: &Step,
    facts: Known<'_>,
    lookups: &mut Lookups,
    gathered: &mut Gathered,
) -> Result<(), NoMemory> {
    given(alloc, run.state(), s, facts, gathered)?;
    after(alloc, run, s, facts, lookups)
}

fn opposite(c: Cmp) -> Cmp {
    match c {
        Cmp::Lt => return Cmp::Ge,
        Cmp::Le => return Cmp::Gt,
        Cmp::Gt => return Cmp::Le,
        Cmp::Ge => return Cmp::Lt,
        Cmp::Eq => return Cmp::Ne,
        Cmp::Ne => return Cmp::Eq,
    }
}

/// Cuts the state by a condition that holds, or does not. A condition on pointers cuts nothing.
pub fn assume(alloc: Global, run: &mut Running, cond: &Cond, holds: bool) -> Result<(), NoMemory> {
    match cond {
        Cond::Ints(c, a, b) => {
            let c = if holds { *c } else { opposite(*c) };
            run.assume(alloc, c, *a, *b)
        }
        Cond::Pointers(_, _, _) => Ok(()),
        Cond::NotNull(_) => Ok(()),
    }
}
