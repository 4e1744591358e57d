ghost use Rattle.std.specs.Prelude.{◌≡◌, ◌≤◌, IfSome};
ghost use Rattle.pt_facts.specs.Nodes.{registers_of};

use c_values::IntType;
use core_ir::{
    Callee, ClassTable, Cond, Constraint, CoreProgram, ExternalName, Function, Leaf, Operand,
    Register, Step, Value,
};
use pt_facts::constraints;
use std::alloc::{AllocError, Global};
use std::test::Fail;
use sv_base::{FuncId, NoMemory};

const INT: Leaf = Leaf::Int(IntType::Int);

// A function of four registers.
fn function(
    alloc: Global,
    leaves: [Leaf; 4],
    returned: Option<u32>,
    body: Vec<Step>,
) -> Result<Function, AllocError> {
    let mut registers = Vec::new(alloc);
    for leaf in leaves {
        registers.push(Register { leaf, named: false })?;
    }
    Ok(Function {
        name: Vec::new(alloc),
        kind: 0,
        parameters: 0,
        registers,
        result: returned,
        body,
    })
}

fn operands(alloc: Global, list: &[Operand]) -> Result<Vec<Operand>, AllocError> {
    let mut args = Vec::new(alloc);
    for a in list {
        args.push(*a)?;
    }
    Ok(args)
}

fn one(alloc: Global, step: Step) -> Result<Vec<Step>, AllocError> {
    let mut steps = Vec::new(alloc);
    steps.push(step)?;
    Ok(steps)
}

// Sums, loads and stores, in a branch inside a loop inside a block.
fn first_body(alloc: Global) -> Result<Vec<Step>, AllocError> {
    let load = Step::Load {
        to: 2,
        address: 0,
        leaf: Leaf::Pointer,
        volatile: false,
    };
    let store = Step::Store {
        address: 3,
        value: Operand::Reg(0),
        leaf: Leaf::Pointer,
    };
    let branch = Step::If {
        cond: Cond::NotNull(0),
        then: one(alloc, load)?,
        other: one(alloc, store)?,
    };
    let mut inside = one(
        alloc,
        Step::Sum {
            to: 3,
            base: 0,
            index: Operand::Const(1),
            size: 4,
        },
    )?;
    inside.push(Step::Loop(one(alloc, branch)?))?;
    let mut body = one(
        alloc,
        Step::Set {
            to: 3,
            value: Value::Address(5),
        },
    )?;
    body.push(Step::Block(inside))?;
    body.push(Step::Return(Some(Operand::Reg(2))))?;
    Ok(body)
}

fn push_set(body: &mut Vec<Step>, to: u32, value: Value) -> Result<(), AllocError> {
    body.push(Step::Set { to, value })?;
    Ok(())
}

fn push_call(
    body: &mut Vec<Step>,
    to: Option<u32>,
    callee: Callee,
    args: Vec<Operand>,
) -> Result<(), AllocError> {
    body.push(Step::Call { to, callee, args })?;
    Ok(())
}

// Functions, a sub-object, an object copy, and a call of each kind.
fn second_body(alloc: Global) -> Result<Vec<Step>, AllocError> {
    let mut body = Vec::new(alloc);
    push_set(&mut body, 0, Value::Function(0))?;
    push_set(&mut body, 1, Value::Function(2))?;
    push_set(&mut body, 2, Value::Copy(Operand::Const(7)))?;
    body.push(Step::Sub {
        to: 3,
        address: 0,
        part: 4,
    })?;
    body.push(Step::CopyObject {
        to: 0,
        from: 1,
        layout: 6,
    })?;
    let args = operands(alloc, &[Operand::Reg(3)])?;
    push_call(&mut body, Some(1), Callee::Direct(FuncId(0)), args)?;
    let args = operands(alloc, &[Operand::Reg(2), Operand::Reg(1)])?;
    push_call(
        &mut body,
        Some(3),
        Callee::Through {
            register: 0,
            kind: 0,
        },
        args,
    )?;
    let args = operands(alloc, &[Operand::Reg(0)])?;
    push_call(&mut body, None, Callee::External(0), args)?;
    push_set(&mut body, 1, Value::Copy(Operand::Reg(0)))?;
    push_set(&mut body, 1, Value::Copy(Operand::Reg(0)))?;
    body.push(Step::Return(None))?;
    Ok(body)
}

fn functions(alloc: Global) -> Result<Vec<Function>, AllocError> {
    let mut functions = Vec::new(alloc);
    let leaves = [Leaf::Pointer, INT, Leaf::Pointer, Leaf::Pointer];
    functions.push(function(alloc, leaves, Some(2), first_body(alloc)?)?)?;
    let leaves = [Leaf::Pointer, Leaf::Pointer, INT, Leaf::Pointer];
    functions.push(function(alloc, leaves, None, second_body(alloc)?)?)?;
    Ok(functions)
}

fn classes(alloc: Global) -> Result<ClassTable, AllocError> {
    let mut leaves = Vec::new(alloc);
    leaves.push(INT)?;
    leaves.push(Leaf::Pointer)?;
    Ok(ClassTable {
        registers: 8,
        regions: Vec::new(alloc),
        leaves,
        rivals: Vec::new(alloc),
        nodes: Vec::new(alloc),
    })
}

fn program(alloc: Global) -> Result<CoreProgram, AllocError> {
    let mut given = Vec::new(alloc);
    given.push(5)?;
    given.push(2_147_483_648)?;
    let mut pointer_starts = Vec::new(alloc);
    pointer_starts.push(Vec::new(alloc))?;
    pointer_starts.push(given)?;
    let mut externals = Vec::new(alloc);
    externals.push(ExternalName {
        name: Vec::new(alloc),
        kind: 0,
    })?;
    Ok(CoreProgram {
        functions: functions(alloc)?,
        entries: Vec::new(alloc),
        objects: Vec::new(alloc),
        parts: Vec::new(alloc),
        classes: classes(alloc)?,
        statics: Vec::new(alloc),
        unions: Vec::new(alloc),
        leaf_starts: Vec::new(alloc),
        pointer_starts,
        sites: Vec::new(alloc),
        externals,
    })
}

// Whether there are fewer nodes than a number counts.
fn counted(functions: &[Function], most: u32) -> Option<u32>
    ensures { IfSome result (λ n. (registers_of functions.now ≡ n) × (n ≤ most)) }
{
    let mut count = 0u32;
    for f in functions {
        if f.registers.len() > (most - count) as usize {
            return None;
        }
        count += f.registers.len() as u32;
    }
    Some(count)
}

fn list_of(alloc: Global, p: &CoreProgram, f: u32) -> Result<Option<Vec<Constraint>>, NoMemory> {
    match counted(&p.functions, 1000) {
        Some(_)
            if p.pointer_starts.len() < 1000
                && p.functions.len() < 1000
                && p.externals.len() < 1000 => { Ok(Some(constraints(alloc, p, FuncId(f))?)) }
        _ => Ok(None),
    }
}

fn is_number(word: Option<&str>, number: u32) -> bool {
    match word {
        Some(word) => word.parse::<u32>() == Ok(number),
        None => false,
    }
}

// Whether these are the constraints: of each its rule, target, source and third.
fn are(list: &[Constraint], wanted: &str) -> bool {
    let mut words = wanted.split(' ');
    let mut are_same = true;
    for c in list {
        are_same = is_number(words.next(), u32::from(c.rule)) && are_same;
        are_same = is_number(words.next(), c.target) && are_same;
        are_same = is_number(words.next(), c.source) && are_same;
        are_same = is_number(words.next(), c.third) && are_same;
    }
    are_same && words.next().is_none()
}

/// The constraints of the first function, and of the second.
const FIRST: &str = "1 3 5 0 1 9 5 0 1 9 2147483648 0 2 2 2 0 2 3 0 0 3 2 0 0 4 3 0 0";

const SECOND: &str =
    "1 4 2147483648 0 1 5 2147483650 0 2 0 7 0 2 5 2 0 2 5 4 0 5 7 4 4 6 4 5 6 7 4 5 1 8 7 4 0";

#[test]
fn the_first_function_has_the_initial_ones_too(rt: HostRuntime) -> Result<(), Fail> {
    let p = program(rt.alloc())?;
    let Some(list) = list_of(rt.alloc(), &p, 0)? else {
        assert!(rt; false);
        return Ok(());
    };
    assert!(rt; are(&list, FIRST));
    Ok(())
}

#[test]
fn nodes_of_a_later_function_come_after_those_before(rt: HostRuntime) -> Result<(), Fail> {
    let p = program(rt.alloc())?;
    let Some(list) = list_of(rt.alloc(), &p, 1)? else {
        assert!(rt; false);
        return Ok(());
    };
    assert!(rt; are(&list, SECOND));
    Ok(())
}
