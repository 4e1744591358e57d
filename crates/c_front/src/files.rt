use c_typed::Typed;
use core_ir::CoreProgram;

/// A file by its name, with its bytes.
#[derive(Drop)]
pub struct SourceFile {
    pub name: String,
    pub bytes: Vec<u8>,
}

/// The program of all files.
#[derive(Drop)]
pub struct Program {
    /// With its types written out.
    pub typed: Typed,
    /// As the analysis takes it.
    pub core: CoreProgram,
    /// Whether a call of a memory function has got a body.
    pub redirected: bool,
}
