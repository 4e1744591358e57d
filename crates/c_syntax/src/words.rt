//! The numbers of the keywords (ISO/IEC 9899:1999, 6.4.1), in the order in which the standard lists them.

pub const AUTO: u8 = 0;

pub const BREAK: u8 = 1;

pub const CASE: u8 = 2;

pub const CHAR: u8 = 3;

pub const CONST: u8 = 4;

pub const CONTINUE: u8 = 5;

pub const DEFAULT: u8 = 6;

pub const DO: u8 = 7;

pub const DOUBLE: u8 = 8;

pub const ELSE: u8 = 9;

pub const ENUM: u8 = 10;

pub const EXTERN: u8 = 11;

pub const FLOAT: u8 = 12;

pub const FOR: u8 = 13;

pub const GOTO: u8 = 14;

pub const IF: u8 = 15;

pub const INLINE: u8 = 16;

pub const INT: u8 = 17;

pub const LONG: u8 = 18;

pub const REGISTER: u8 = 19;

pub const RESTRICT: u8 = 20;

pub const RETURN: u8 = 21;

pub const SHORT: u8 = 22;

pub const SIGNED: u8 = 23;

pub const SIZEOF: u8 = 24;

pub const STATIC: u8 = 25;

pub const STRUCT: u8 = 26;

pub const SWITCH: u8 = 27;

pub const TYPEDEF: u8 = 28;

pub const UNION: u8 = 29;

pub const UNSIGNED: u8 = 30;

pub const VOID: u8 = 31;

pub const VOLATILE: u8 = 32;

pub const WHILE: u8 = 33;

pub const BOOL: u8 = 34;

pub const COMPLEX: u8 = 35;

pub const IMAGINARY: u8 = 36;
