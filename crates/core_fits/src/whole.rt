ghost use Rattle.std.specs.Prelude.{◌+◌, ◌≤◌, ◌<◌, ◌^◌, IfOk, IsTrue, length};
ghost use Rattle.std.specs.List.{AllByRecursion};
ghost use Rattle.core_ir.specs.Programs.{program_of};

use crate::places::Objects;
use crate::registers::register_count;
use crate::rooms::{entries_fit, functions_have_room, nodes_have_room, sites_fit};
use crate::starts::starts_fit;
use core_ir::CoreProgram;
use objects_fit::{Nodes, table_fits};
use std::alloc::Global;
use steps_fit::{functions_fit, owners_of};
use sv_base::NoMemory;

// Whether the numbers of a program have room, and those of functions are of functions that are there.
fn numbers_fit(core: &CoreProgram, nodes: &Nodes) -> bool
    ensures defined { IsTrue result → length (program_of core.now).functions ≤ 20000 }
    ensures external { IsTrue result → 20000 + length (program_of core.now).externals ≤ 2 ^ 31 }
    ensures entries { IsTrue result → AllByRecursion (λ f. f < length (program_of core.now).functions) (program_of core.now).entries }
    ensures sites { IsTrue result → AllByRecursion (λ s. s.function.0 < length (program_of core.now).functions) (program_of core.now).sites }
{
    let Some(registers) = register_count(core) else {
        return false;
    };
    functions_have_room(core)
        && nodes_have_room(nodes.regions.len(), registers, nodes.leaves.len())
        && entries_fit(core)
        && sites_fit(core)
}

// Whether each object is named by the function alone that begins it, and the static ones begin as is said.
fn statics_fit(alloc: Global, core: &CoreProgram, nodes: &Nodes) -> Result<bool, NoMemory> {
    match owners_of(alloc, &core.functions, nodes.regions.len())? {
        None => Ok(false),
        Some(owners) => {
            let objects = Objects {
                nodes,
                owners: &owners,
            };
            starts_fit(alloc, core, objects)
        }
    }
}

/// Whether a program fits.
pub fn fits(alloc: Global, core: &CoreProgram) -> Result<bool, NoMemory>
    ensures defined { IfOk result (λ yes. IsTrue yes → length (program_of core.now).functions ≤ 20000) }
    ensures external { IfOk result (λ yes. IsTrue yes → 20000 + length (program_of core.now).externals ≤ 2 ^ 31) }
    ensures entries { IfOk result (λ yes. IsTrue yes → AllByRecursion (λ f. f < length (program_of core.now).functions) (program_of core.now).entries) }
    ensures sites { IfOk result (λ yes. IsTrue yes → AllByRecursion (λ s. s.function.0 < length (program_of core.now).functions) (program_of core.now).sites) }
{
    let Some(nodes) = Nodes::of(alloc, &core.objects)? else {
        return Ok(false);
    };
    Ok(
        numbers_fit(core, &nodes)
            && table_fits(alloc, core, &nodes)?
            && statics_fit(alloc, core, &nodes)?
            && functions_fit(alloc, core)?,
    )
}
