//! Steps as text, as far as the tests have them.

use c_values::{Cmp, Op};
use core_ir::{Cond, Operand, Step, Value};
use std::alloc::AllocError;

fn push_operand(a: Operand, text: &mut String) -> Result<(), AllocError> {
    match a {
        Operand::Reg(r) => write!(text, "r{r}"),
        Operand::Const(number) => write!(text, "{number}"),
    }
}

fn push_value(value: Value, text: &mut String) -> Result<(), AllocError> {
    match value {
        Value::Copy(a) => push_operand(a, text),
        Value::Binary(Op::Add, _, a, b) => {
            push_operand(a, text)?;
            text.push_str(" + ")?;
            push_operand(b, text)
        }
        Value::Address(class) => write!(text, "&{class}"),
        _ => text.push_str("other"),
    }
}

fn push_condition(cond: Cond, text: &mut String) -> Result<(), AllocError> {
    let Cond::Ints(op, a, b) = cond else {
        return text.push_str("other");
    };
    push_operand(a, text)?;
    text.push_str(match op {
        Cmp::Lt => " < ",
        Cmp::Eq => " == ",
        _ => " != ",
    })?;
    push_operand(b, text)
}

fn push_call(to: Option<u32>, args: &[Operand], text: &mut String) -> Result<(), AllocError> {
    if let Some(to) = to {
        write!(text, "r{to} = ")?;
    }
    text.push_str("call (")?;
    for a in args {
        text.push_str(" ")?;
        push_operand(*a, text)?;
    }
    text.push_str(" ); ")
}

fn push_plain(step: &Step, text: &mut String) -> Result<(), AllocError> {
    match step {
        Step::Set { to, value } => {
            write!(text, "r{to} = ")?;
            push_value(*value, text)?;
        }
        Step::Sum {
            to,
            base,
            index,
            size,
        } => {
            write!(text, "r{to} = r{base} + {size} * ")?;
            push_operand(*index, text)?;
        }
        Step::Check { site, address, .. } => {
            let number = site.0;
            write!(text, "check {number} r{address}")?;
        }
        Step::Load { to, address, .. } => write!(text, "r{to} = *r{address}")?,
        Step::Store { address, value, .. } => {
            write!(text, "*r{address} = ")?;
            push_operand(*value, text)?;
        }
        Step::Exit(block) => write!(text, "exit {block}")?,
        Step::Return(Some(a)) => {
            text.push_str("return ")?;
            push_operand(*a, text)?;
        }
        _ => text.push_str("other")?,
    }
    text.push_str("; ")
}

#[cycle(printing)]
fn push_step(step: &Step, text: &mut String) -> Result<(), AllocError> {
    match step {
        Step::If { cond, then, other } => {
            text.push_str("if ")?;
            push_condition(*cond, text)?;
            text.push_str(" ")?;
            push_body(then, text)?;
            text.push_str("else ")?;
            push_body(other, text)
        }
        Step::Block(body) => {
            text.push_str("block ")?;
            push_body(body, text)
        }
        Step::Loop(body) => {
            text.push_str("loop ")?;
            push_body(body, text)
        }
        Step::Call { to, args, .. } => push_call(*to, args, text),
        _ => push_plain(step, text),
    }
}

#[cycle(printing)]
fn push_body(steps: &[Step], text: &mut String) -> Result<(), AllocError> {
    text.push_str("{ ")?;
    push_steps(steps, text)?;
    text.push_str("} ")
}

/// Appends the text of steps.
#[cycle(printing)]
pub(crate) fn push_steps(steps: &[Step], text: &mut String) -> Result<(), AllocError> {
    for step in steps {
        push_step(step, text)?;
    }
    Ok(())
}
