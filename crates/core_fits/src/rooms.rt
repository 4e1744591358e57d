ghost use Rattle.std.specs.Prelude.{◌≡◌, ◌+◌, ◌≤◌, ◌<◌, ◌^◌, IsTrue, length};
ghost use Rattle.std.specs.List.{AllByRecursion};
ghost use Rattle.core_ir.specs.Programs.{program_of};
ghost use Rattle.core_fits.specs.Callers.{are_below, sites_below};

use core_ir::{CoreProgram, CoreSite};
use sv_base::FuncId;

// Numbers of regions, of functions and of nodes have 32 bits, where functions come from this one on.
const FIRST_FUNCTION: u64 = 2_147_483_648;

const NODES: u64 = 4_294_967_296;

const FUNCTIONS: usize = 20_000;

/// Whether there are no more functions than there may be: the external ones, which come last, have the room that the greatest number
/// of defined ones leaves.
pub(crate) fn functions_have_room(core: &CoreProgram) -> bool
    ensures defined { IsTrue result → length (program_of core.now).functions ≤ 20000 }
    ensures external { IsTrue result → 20000 + length (program_of core.now).externals ≤ 2 ^ 31 }
{
    core.functions.len() <= FUNCTIONS
        && core.externals.len() as u64 <= FIRST_FUNCTION - FUNCTIONS as u64
}

/// Whether regions and nodes have numbers of 32 bits.
pub(crate) fn nodes_have_room(regions: usize, registers: u64, leaves: usize) -> bool {
    regions as u64 <= FIRST_FUNCTION && registers.saturating_add(leaves as u64) < NODES
}

fn are_functions(entries: &[FuncId], count: usize) -> bool
    ensures { result ≡ are_below count entries.now }
{
    for entry in entries {
        if entry.0 as usize >= count {
            return false;
        }
    }
    true
}

fn are_sites(sites: &[CoreSite], count: usize) -> bool
    ensures { result ≡ sites_below count sites.now }
{
    for site in sites {
        if site.function.0 as usize >= count {
            return false;
        }
    }
    true
}

/// Whether the environment calls functions that are there.
pub(crate) fn entries_fit(core: &CoreProgram) -> bool
    ensures { IsTrue result → AllByRecursion (λ f. f < length (program_of core.now).functions) (program_of core.now).entries }
{
    are_functions(&core.entries, core.functions.len())
}

/// Whether each site is in a function that is there.
pub(crate) fn sites_fit(core: &CoreProgram) -> bool
    ensures { IsTrue result → AllByRecursion (λ s. s.function.0 < length (program_of core.now).functions) (program_of core.now).sites }
{
    are_sites(&core.sites, core.functions.len())
}
