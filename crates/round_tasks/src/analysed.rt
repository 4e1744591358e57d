ghost use Rattle.std.specs.Prelude.{◌≡◌, ◌<◌, ◌≤◌, ◌+◌, ◌^◌, length, true};
ghost use Rattle.pt_facts.specs.Nodes.{function_count, registers_of};

use core_ir::CoreProgram;

/// The analysis of a program.
#[derive(Drop)]
pub struct Analysis {
    pub(crate) core: CoreProgram,
    pub(crate) rounds: u32,
    // whether nodes and functions can be numbered
    pub(crate) has_room: bool,
    ghost nodes: { has_room ≡ true → registers_of core.functions.items + length core.pointer_starts.items < 2 ^ 32 },
    ghost functions: { has_room ≡ true → function_count core ≤ 2 ^ 31 },
}
