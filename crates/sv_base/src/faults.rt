//! The faults by name, with their codes. Their texts stand in `docs/FORMATS.md`.

use crate::fault::FaultKind;

/// `float`, `double`, or a floating constant.
pub const FLOATING: FaultKind = FaultKind::Unsupported(1);
/// `_Complex`, `_Imaginary`.
pub const COMPLEX: FaultKind = FaultKind::Unsupported(2);
/// A wide, universal or long character.
pub const WIDE_CHARACTER: FaultKind = FaultKind::Unsupported(3);
/// An array of variable length.
pub const VARIABLE_ARRAY: FaultKind = FaultKind::Unsupported(4);
/// `goto`, or a label.
pub const GOTO: FaultKind = FaultKind::Unsupported(5);
/// A bit-field.
pub const BIT_FIELD: FaultKind = FaultKind::Unsupported(6);
/// A flexible array member.
pub const FLEXIBLE_MEMBER: FaultKind = FaultKind::Unsupported(7);
/// A compound literal.
pub const COMPOUND_LITERAL: FaultKind = FaultKind::Unsupported(8);
/// A word that GNU C reserves.
pub const GNU_WORD: FaultKind = FaultKind::Unsupported(9);
/// A structure or union as a parameter or a result.
pub const AGGREGATE_VALUE: FaultKind = FaultKind::Unsupported(10);
/// A definition of the old style.
pub const OLD_STYLE: FaultKind = FaultKind::Unsupported(11);
/// A definition with variable arguments.
pub const VARIABLE_ARGUMENTS: FaultKind = FaultKind::Unsupported(12);
/// A `case` that stands deeper in its `switch`.
pub const DEEP_CASE: FaultKind = FaultKind::Unsupported(14);
/// `setjmp`, `longjmp`.
pub const LONG_JUMP: FaultKind = FaultKind::Unsupported(15);

/// Operand types.
pub const OPERANDS: FaultKind = FaultKind::Typing(1);
/// A name without a declaration.
pub const UNDECLARED: FaultKind = FaultKind::Typing(2);
/// A name that is declared otherwise.
pub const DECLARED_OTHERWISE: FaultKind = FaultKind::Typing(3);
/// A value that does not convert.
pub const CONVERSION: FaultKind = FaultKind::Typing(4);
/// No lvalue.
pub const NO_LVALUE: FaultKind = FaultKind::Typing(5);
/// A wrong number of arguments.
pub const ARGUMENT_COUNT: FaultKind = FaultKind::Typing(6);
/// A size that is not known.
pub const UNKNOWN_SIZE: FaultKind = FaultKind::Typing(7);
/// No constant.
pub const NO_CONSTANT: FaultKind = FaultKind::Typing(8);
/// Specifiers that do not fit.
pub const SPECIFIERS: FaultKind = FaultKind::Typing(9);
/// A member that is not known.
pub const UNKNOWN_MEMBER: FaultKind = FaultKind::Typing(10);
/// An initialiser that does not fit.
pub const INITIALISER: FaultKind = FaultKind::Typing(11);
/// An address constant outside its array.
pub const OUTSIDE_ARRAY: FaultKind = FaultKind::Typing(12);
/// A statement that is misplaced.
pub const MISPLACED: FaultKind = FaultKind::Typing(13);

/// An entry that is not defined.
pub const NO_ENTRY: FaultKind = FaultKind::Link(1);
/// Defined twice.
pub const DEFINED_TWICE: FaultKind = FaultKind::Link(2);
/// Declared with unlike types.
pub const UNLIKE_TYPES: FaultKind = FaultKind::Link(3);
/// An object that is not defined.
pub const UNDEFINED_OBJECT: FaultKind = FaultKind::Link(4);

/// Too many bytes in a file.
pub const FILE_TOO_LONG: FaultKind = FaultKind::Limit(1);
/// Too many bytes in all files.
pub const FILES_TOO_LONG: FaultKind = FaultKind::Limit(2);
/// Too many tokens.
pub const TOO_MANY_TOKENS: FaultKind = FaultKind::Limit(3);
/// Nested too deep.
pub const TOO_DEEP: FaultKind = FaultKind::Limit(4);
/// Too many loops inside one another.
pub const TOO_MANY_LOOPS: FaultKind = FaultKind::Limit(5);
/// Too many functions.
pub const TOO_MANY_FUNCTIONS: FaultKind = FaultKind::Limit(6);
/// Too many sites.
pub const TOO_MANY_SITES: FaultKind = FaultKind::Limit(7);
/// An object that is too large.
pub const OBJECT_TOO_LARGE: FaultKind = FaultKind::Limit(8);
/// Too many region and leaf classes.
pub const TOO_MANY_CLASSES: FaultKind = FaultKind::Limit(9);
/// Too many registers.
pub const TOO_MANY_REGISTERS: FaultKind = FaultKind::Limit(10);
/// Too many parameters or arguments.
pub const TOO_MANY_PARAMETERS: FaultKind = FaultKind::Limit(11);
/// A token that is too long.
pub const TOKEN_TOO_LONG: FaultKind = FaultKind::Limit(12);
/// Too many presumed names.
pub const TOO_MANY_NAMES: FaultKind = FaultKind::Limit(13);
