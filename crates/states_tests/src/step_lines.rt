// Steps, one to a line.

use crate::commands::{comparison, operand, register, truth, word};
use crate::fact_lines::{leaf_at, type_at};
use c_values::{Cmp, Op, UnOp};
use core_ir::{Callee, Operand, Step, Value};
use std::alloc::Global;
use sv_base::{FuncId, NoMemory, SiteId};

fn operand_at(line: &str, at: usize) -> Option<Operand> {
    operand(word(line, at)?)
}

fn operator(word: &str) -> Option<Op> {
    match word.as_bytes() {
        b"add" => Some(Op::Add),
        b"sub" => Some(Op::Sub),
        b"mul" => Some(Op::Mul),
        b"div" => Some(Op::Div),
        b"rem" => Some(Op::Rem),
        b"shl" => Some(Op::Shl),
        b"shr" => Some(Op::Shr),
        b"and" => Some(Op::And),
        b"or" => Some(Op::Or),
        b"xor" => Some(Op::Xor),
        _ => None,
    }
}

fn unary_operator(word: &str) -> Option<UnOp> {
    match word.as_bytes() {
        b"neg" => Some(UnOp::Neg),
        b"not" => Some(UnOp::Not),
        _ => None,
    }
}

fn convert(line: &str) -> Option<Value> {
    Some(Value::Convert(type_at(line, 3)?, operand_at(line, 4)?))
}

fn unary(line: &str) -> Option<Value> {
    Some(Value::Unary(
        unary_operator(word(line, 3)?)?,
        type_at(line, 4)?,
        operand_at(line, 5)?,
    ))
}

fn binary(line: &str) -> Option<Value> {
    Some(Value::Binary(
        operator(word(line, 3)?)?,
        type_at(line, 4)?,
        operand_at(line, 5)?,
        operand_at(line, 6)?,
    ))
}

fn compare(line: &str) -> Option<Value> {
    Some(Value::Compare(
        comparison(word(line, 3)?)?,
        operand_at(line, 4)?,
        operand_at(line, 5)?,
    ))
}

fn minus(line: &str) -> Option<Value> {
    Some(Value::Minus {
        a: register(line, 3)?,
        b: register(line, 4)?,
        size: word(line, 5)?.parse().ok()?,
    })
}

fn pointers(line: &str) -> Option<Value> {
    Some(Value::PointerCompare(Cmp::Lt, register(line, 3)?, register(line, 4)?))
}

fn to_int(line: &str) -> Option<Value> {
    Some(Value::ToInt(type_at(line, 3)?, register(line, 4)?))
}

fn copy(line: &str) -> Option<Value> {
    Some(Value::Copy(operand_at(line, 3)?))
}

fn value(line: &str) -> Option<Value> {
    match word(line, 1).unwrap_or("").as_bytes() {
        b"copy" => copy(line),
        b"convert" => convert(line),
        b"unary" => unary(line),
        b"binary" => binary(line),
        b"compare" => compare(line),
        b"address" => Some(Value::Address(0)),
        b"null" => Some(Value::Null),
        b"from_int" => Some(Value::FromInt(Operand::Const(1))),
        b"function" => Some(Value::Function(1)),
        b"to_int" => to_int(line),
        b"minus" => minus(line),
        b"pointers" => pointers(line),
        _ => None,
    }
}

fn sum(line: &str) -> Option<Step> {
    Some(Step::Sum {
        to: register(line, 2)?,
        base: register(line, 3)?,
        index: operand_at(line, 4)?,
        size: word(line, 5)?.parse().ok()?,
    })
}

fn check(line: &str) -> Option<Step> {
    Some(Step::Check {
        site: SiteId(0),
        address: register(line, 2)?,
        width: word(line, 3)?.parse().ok()?,
    })
}

fn sub(line: &str) -> Option<Step> {
    Some(Step::Sub {
        to: register(line, 2)?,
        address: register(line, 3)?,
        part: 0,
    })
}

fn load(line: &str) -> Option<Step> {
    Some(Step::Load {
        to: register(line, 2)?,
        address: register(line, 3)?,
        leaf: leaf_at(line, 4)?,
        volatile: truth(word(line, 5)?)?,
    })
}

fn store(line: &str) -> Option<Step> {
    Some(Step::Store {
        address: register(line, 2)?,
        value: operand_at(line, 3)?,
        leaf: leaf_at(line, 4)?,
    })
}

fn copy_object(line: &str) -> Option<Step> {
    Some(Step::CopyObject {
        to: register(line, 2)?,
        from: register(line, 3)?,
        layout: register(line, 4)?,
    })
}

fn begin(line: &str) -> Option<Step> {
    Some(Step::Begin {
        object: register(line, 2)?,
        initialised: truth(word(line, 3)?)?,
    })
}

fn set(line: &str) -> Option<Step> {
    Some(Step::Set {
        to: register(line, 2)?,
        value: value(line)?,
    })
}

fn plain_step(line: &str) -> Option<Step> {
    match word(line, 1).unwrap_or("").as_bytes() {
        b"add" => sum(line),
        b"check" => check(line),
        b"sub" => sub(line),
        b"load" => load(line),
        b"store" => store(line),
        b"copy_object" => copy_object(line),
        b"begin" => begin(line),
        _ => set(line),
    }
}

fn callee(line: &str) -> Option<Callee> {
    match word(line, 3)?.as_bytes() {
        b"direct" => Some(Callee::Direct(FuncId(register(line, 4)?))),
        b"outside" => Some(Callee::External(register(line, 4)?)),
        b"through" => {
            let (register, kind) = word(line, 4)?.split_once(':')?;
            Some(Callee::Through {
                register: register.parse().ok()?,
                kind: kind.parse().ok()?,
            })
        }
        _ => None,
    }
}

fn arguments(alloc: Global, line: &str) -> Result<Vec<Operand>, NoMemory> {
    let mut list = Vec::new(alloc);
    for word in line.split_whitespace().skip(5) {
        if let Some(o) = operand(word) {
            list.push(o)?;
        }
    }
    Ok(list)
}

/// The step of a line `step ..`; a step that does nothing where the line is none.
pub(crate) fn read_step(alloc: Global, line: &str) -> Result<Step, NoMemory> {
    if let Some(callee) = callee(line) {
        return Ok(Step::Call {
            to: register(line, 2),
            callee,
            args: arguments(alloc, line)?,
        });
    }
    match plain_step(line) {
        Some(step) => Ok(step),
        None => Ok(Step::Exit(0)),
    }
}
