//! Programs that do not fit: each is one that fits, with one change.

use crate::programs::program_of;
use c_values::IntType;
use core_fits::fits;
use core_ir::{Callee, CoreProgram, Function, Leaf, Operand, StaticValue, Step, Value};
use std::alloc::Global;
use std::test::Fail;
use sv_base::{FuncId, SiteId};

// Registers 0 and 1 hold the arguments, 2 and 3 the variables that begin with them.
const TEXT: &str = "\
int v[4]; int k = 3; char c = 'x'; int *p = &v[1];
int test(int a, int b) { int w[2]; w[b] = v[a]; p = w; return *p + k + c; }
int other(int a) { int w[2]; w[0] = a; return test(w[a], 1); }";

const STEPS: u32 = 8;

// A step that may not stand at the end of the first function.
fn wrong_step(alloc: Global, number: u32) -> Step {
    match number {
        // an argument is overwritten
        0 => Step::Set {
            to: 0,
            value: Value::Copy(Operand::Const(1)),
        },
        // a number that its type does not have
        1 => Step::Set {
            to: 2,
            value: Value::Copy(Operand::Const(4_294_967_296)),
        },
        // a call without its arguments
        2 => Step::Call {
            to: None,
            callee: Callee::Direct(FuncId(0)),
            args: Vec::new(alloc),
        },
        // no block to leave
        3 => Step::Exit(0),
        // an access through a number
        4 => Step::Check {
            site: SiteId(4),
            address: 2,
            width: 4,
        },
        // a number in the place of a pointer
        5 => Step::Load {
            to: 2,
            address: 3,
            leaf: Leaf::Int(IntType::Int),
            volatile: false,
        },
        // a static object that comes to life
        6 => Step::Begin {
            object: 0,
            initialised: false,
        },
        // a register that is not there
        _ => Step::Return(Some(Operand::Reg(1000))),
    }
}

fn push_step(alloc: Global, function: &mut Function, number: u32) -> Result<(), Fail> {
    Ok(function.body.push(wrong_step(alloc, number))?)
}

const TABLES: u32 = 7;

// Changes a function or a table.
fn change(core: &mut CoreProgram, number: u32) -> Result<(), Fail> {
    match number {
        // an entry that is not there
        0 => core.entries.push(FuncId(2))?,
        // a start of a value that its leaf does not have
        1 => {
            for leaf in core.statics.iter_mut() {
                leaf.value = StaticValue::Int(4_294_967_296);
            }
        }
        // leaves that begin with nothing
        2 => core.leaf_starts.clear(),
        // registers that are not counted
        3 => core.classes.registers = 0,
        // leaves without rivals
        4 => core.classes.rivals.clear(),
        // regions without bytes
        5 => {
            for region in core.classes.regions.iter_mut() {
                region.length = 0;
            }
        }
        // functions without nodes
        _ => core.classes.nodes.clear(),
    }
    Ok(())
}

#[test]
fn a_program_fits_and_no_longer_with_one_step_more(rt: HostRuntime) -> Result<(), Fail> {
    let alloc = rt.alloc();
    let program = program_of(alloc, TEXT, "")?;
    assert!(rt; fits(alloc, &program.core)?);
    for number in 0..STEPS {
        let mut program = program_of(alloc, TEXT, "")?;
        if let Some(function) = program.core.functions.first_mut() {
            push_step(alloc, function, number)?;
        }
        assert!(rt; !fits(alloc, &program.core)?, "step {number}");
    }
    Ok(())
}

#[test]
fn no_program_fits_with_a_table_changed(rt: HostRuntime) -> Result<(), Fail> {
    let alloc = rt.alloc();
    for number in 0..TABLES {
        let mut program = program_of(alloc, TEXT, "")?;
        change(&mut program.core, number)?;
        assert!(rt; !fits(alloc, &program.core)?, "table {number}");
    }
    Ok(())
}
