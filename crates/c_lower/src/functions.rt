use crate::code::Code;
use crate::context::{Context, is_int, is_void, leaf_of};
use crate::statements::statement;
use c_typed::{TypeId, TypeKind};
use core_ir::{Operand, Step, Value};
use sv_base::FrontFault;

// What a function's type gives.
fn result_of(x: Context<'_>) -> TypeId {
    match x.types().kind(x.function.of) {
        TypeKind::Function(result) => result,
        _ => x.function.of,
    }
}

// The entry registers, the named ones and that of the result, which is the answer.
fn make_registers(x: Context<'_>, c: &mut Code) -> Result<Option<u32>, FrontFault> {
    for number in 0..x.function.params {
        if let Some(object) = x.object(number) {
            c.new_register(leaf_of(x.types(), object.of), false)?;
        }
    }
    for number in &x.plan.named {
        if let Some(object) = x.object(*number) {
            c.new_register(leaf_of(x.types(), object.of), true)?;
        }
    }
    let result = result_of(x);
    if is_void(x.types(), result) {
        return Ok(None);
    }
    Ok(Some(c.new_register(leaf_of(x.types(), result), false)?))
}

fn begin_parameters(x: Context<'_>, c: &mut Code) -> Result<(), FrontFault> {
    for number in 0..x.function.params {
        if x.register(number).is_none() {
            c.step(Step::Begin {
                object: x.region(number),
                initialised: false,
            })?;
        }
    }
    Ok(())
}

// Each parameter is copied from its entry register to where it lives.
fn copy_parameters(x: Context<'_>, c: &mut Code) -> Result<(), FrontFault> {
    for number in 0..x.function.params {
        let argument = Operand::Reg(number);
        match x.register(number) {
            Some(r) => c.set(r, Value::Copy(argument))?,
            None => {
                let address = c.put_pointer(Value::Address(x.region(number)))?;
                c.step(Step::Store {
                    address,
                    value: argument,
                    leaf: c.leaf(number),
                })?;
            }
        }
    }
    Ok(())
}

// The end of `main` gives 0 back (ISO/IEC 9899:1999, 5.1.2.2.3).
fn end_main(x: Context<'_>, c: &mut Code) -> Result<(), FrontFault> {
    if x.function.name.as_slice() == b"main".as_slice() && is_int(x.types(), result_of(x)) {
        c.step(Step::Return(Some(Operand::Const(0))))?;
    }
    Ok(())
}

/// Lowers the body of a function. The answer is its kind and the register of its result.
pub(crate) fn lower_body(x: Context<'_>, c: &mut Code) -> Result<(u32, Option<u32>), FrontFault> {
    let kind = c.numbers.kinds.number(x.types().class(x.function.of))?;
    let result = make_registers(x, c)?;
    begin_parameters(x, c)?;
    copy_parameters(x, c)?;
    statement(&x.function.code, x, c)?;
    end_main(x, c)?;
    Ok((kind, result))
}
