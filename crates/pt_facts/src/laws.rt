//! A law, as the contract of a function that does nothing.
ghost use Rattle.std.specs.Prelude.{◌<◌, ◌≤◌, ◌+◌, ◌^◌, length};
ghost use Rattle.core_ir.specs.declared.program.CoreProgram.{CoreProgram};
ghost use Rattle.core_ir.specs.Programs.{program_of};
ghost use Rattle.core_ir.specs.ProgramsFit.{ProgramFits};
ghost use Rattle.pt_facts.specs.Nodes.{function_count, registers_of};

/// The nodes and the functions of a program that fits have the room that `constraints` asks for.
pub fn programs_that_fit_have_room()
    ensures nodes { (p : CoreProgram) → ProgramFits (program_of p) → registers_of p.functions.items + length p.pointer_starts.items < 2 ^ 32 }
    ensures functions { (p : CoreProgram) → ProgramFits (program_of p) → function_count p ≤ 2 ^ 31 }
{}
