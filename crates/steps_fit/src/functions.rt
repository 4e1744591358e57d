ghost use Rattle.std.specs.Prelude.{IsTrue};
ghost use Rattle.core_ir.specs.Programs.{function_of};
ghost use Rattle.core_ir.specs.StepsFit.{ResultRegister};

use crate::body::body_fits;
use crate::models::{are_models, models_of};
use crate::setting::{Setting, objects_of};
use core_ir::{CoreProgram, Function};
use std::alloc::Global;
use sv_base::NoMemory;

fn result_register(f: &Function) -> bool
    ensures { IsTrue result → ResultRegister (function_of f.now) f.now.result }
{
    match f.result {
        None => true,
        Some(r) => f.parameters <= r && (r as usize) < f.registers.len(),
    }
}

fn function_fits(
    alloc: Global,
    x: &Setting<'_>,
    number: u32,
    f: &Function,
) -> Result<bool, NoMemory> {
    if (f.parameters as usize) > f.registers.len() || !result_register(f) {
        return Ok(false);
    }
    body_fits(alloc, x, number, f)
}

fn all_fit(alloc: Global, x: &Setting<'_>) -> Result<bool, NoMemory> {
    let mut number = 0u32;
    for f in &x.core.functions {
        if !function_fits(alloc, x, number, f)? {
            return Ok(false);
        }
        number = number.checked_add(1).ok_or(NoMemory)?;
    }
    Ok(true)
}

/// Whether each function fits.
pub fn functions_fit(alloc: Global, core: &CoreProgram) -> Result<bool, NoMemory> {
    let objects = objects_of(alloc, core)?;
    let models = models_of(alloc, &core.functions)?;
    if !are_models(&models, &core.functions) {
        return Ok(false);
    }
    let x = Setting {
        core,
        objects: &objects,
        models: &models,
    };
    all_fit(alloc, &x)
}
