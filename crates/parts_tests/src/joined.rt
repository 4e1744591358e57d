use c_values::{Cmp, IntType, Op};
use core_ir::{Callee, Cond, Function, Leaf, Operand, Register, Step, Value};
use std::alloc::{AllocError, Global};
use std::test::Fail;
use sv_base::{FuncId, NoMemory};
use var_clusters::clusters;

// A function of named registers of the type int.
fn function(
    alloc: Global,
    registers: u32,
    returned: Option<u32>,
    body: Vec<Step>,
) -> Result<Function, AllocError> {
    let mut list = Vec::new(alloc);
    for _ in 0..registers {
        list.push(Register {
            leaf: Leaf::Int(IntType::Int),
            named: true,
        })?;
    }
    Ok(Function {
        name: Vec::new(alloc),
        kind: 0,
        parameters: 0,
        registers: list,
        result: returned,
        body,
    })
}

fn copy(to: u32, from: u32) -> Step {
    Step::Set {
        to,
        value: Value::Copy(Operand::Reg(from)),
    }
}

fn constant(to: u32) -> Step {
    Step::Set {
        to,
        value: Value::Copy(Operand::Const(0)),
    }
}

fn steps(alloc: Global, a: Step, b: Step) -> Result<Vec<Step>, AllocError> {
    let mut list = Vec::new(alloc);
    list.push(a)?;
    list.push(b)?;
    Ok(list)
}

fn is_number(word: Option<&str>, number: u32) -> bool {
    match word {
        Some(word) => word.parse::<u32>() == Ok(number),
        None => false,
    }
}

fn is_list(list: &[u32], wanted: &str) -> bool {
    let mut words = wanted.split(' ');
    let mut is_same = true;
    for number in list {
        is_same = is_number(words.next(), *number) && is_same;
    }
    is_same && words.next().is_none()
}

// Whether these are the clusters, with commas between them.
fn are(found: &[Vec<u32>], wanted: &str) -> bool {
    let mut lists = wanted.split(',');
    let mut are_same = true;
    for list in found {
        are_same = match lists.next() {
            Some(wanted) => is_list(list, wanted) && are_same,
            None => false,
        };
    }
    are_same && lists.next().is_none()
}

fn clusters_are(alloc: Global, f: &Function, wanted: &str) -> Result<bool, NoMemory> {
    if f.registers.len() > 18 {
        return Ok(false);
    }
    Ok(are(&clusters(alloc, f)?, wanted))
}

#[test]
fn a_loop_joins_the_registers_that_it_assigns(rt: HostRuntime) -> Result<(), Fail> {
    let inner = steps(rt.alloc(), constant(4), constant(2))?;
    let outer = steps(rt.alloc(), Step::Block(inner), constant(0))?;
    let body = steps(rt.alloc(), Step::Loop(outer), Step::Exit(0))?;
    let f = function(rt.alloc(), 5, None, body)?;
    assert!(rt; clusters_are(rt.alloc(), &f, "0 2 4,1,3")?);
    Ok(())
}

#[test]
fn seventeen_registers_stay_apart(rt: HostRuntime) -> Result<(), Fail> {
    let mut body = Vec::new(rt.alloc());
    for r in 0..17u32 {
        body.push(copy(17, r))?;
    }
    let f = function(rt.alloc(), 18, None, body)?;
    assert!(rt;
        clusters_are(
            rt.alloc(),
            &f,
            "0 1 2 3 4 5 6 7 8 9 10 11 12 13 14 17,15,16"
        )?
    );
    Ok(())
}

#[test]
fn differences_conditions_calls_and_returns_join(rt: HostRuntime) -> Result<(), Fail> {
    let mut args = Vec::new(rt.alloc());
    args.push(Operand::Reg(4))?;
    let minus = Value::Binary(Op::Sub, IntType::Int, Operand::Const(9), Operand::Reg(0));
    let mut body = steps(
        rt.alloc(),
        Step::Set {
            to: 1,
            value: minus,
        },
        Step::Call {
            to: Some(5),
            callee: Callee::Direct(FuncId(0)),
            args,
        },
    )?;
    body.push(Step::If {
        cond: Cond::Ints(Cmp::Lt, Operand::Reg(2), Operand::Reg(3)),
        then: Vec::new(rt.alloc()),
        other: Vec::new(rt.alloc()),
    })?;
    body.push(Step::Return(Some(Operand::Reg(6))))?;
    let f = function(rt.alloc(), 8, Some(7), body)?;
    assert!(rt; clusters_are(rt.alloc(), &f, "0 1,2 3,4 5,6 7")?);
    Ok(())
}
