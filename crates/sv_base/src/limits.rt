//! The limits of a source. Each has its number and, by `faults`, the fault that comes where a quantity would pass it.

/// The bytes of one file.
pub const FILE_BYTES: usize = 16_777_216;
/// The bytes of all files.
pub const TOTAL_BYTES: usize = 33_554_432;
/// The tokens of all files, the end of a file aside.
pub const TOKENS: u32 = 4_194_304;
/// The nodes of expressions, statements, declarators and initialisers on one path of an external declaration.
pub const NESTING: usize = 256;
/// Loops that stand inside one another.
pub const LOOPS: usize = 12;
/// Defined functions.
pub const FUNCTIONS: u32 = 20_000;
/// Sites of all functions.
pub const SITES: u32 = 1_000_000;
/// The bytes of an array, a structure or a union.
pub const OBJECT_BYTES: u64 = 1_073_741_824;
/// The region and leaf classes of all objects.
pub const CLASSES: u32 = 1_000_000;
/// The registers of one function.
pub const REGISTERS: u32 = 32_768;
/// The parameters of a function, and the arguments of a call.
pub const PARAMETERS: usize = 127;
/// The bytes of one token.
pub const TOKEN_BYTES: usize = 65_536;
/// Presumed names of files.
pub const NAMES: usize = 65_535;
