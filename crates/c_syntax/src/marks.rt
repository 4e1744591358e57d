//! The numbers of the punctuators (ISO/IEC 9899:1999, 6.4.6), in the order of the table that `specs/Marks.antt` has.

/// `[`
pub const LEFT_BRACKET: u8 = 0;
/// `]`
pub const RIGHT_BRACKET: u8 = 1;
/// `(`
pub const LEFT_PARENTHESIS: u8 = 2;
/// `)`
pub const RIGHT_PARENTHESIS: u8 = 3;
/// `{`
pub const LEFT_BRACE: u8 = 4;
/// `}`
pub const RIGHT_BRACE: u8 = 5;
/// `.`
pub const PERIOD: u8 = 6;
/// `->`
pub const ARROW: u8 = 7;
/// `++`
pub const PLUS_PLUS: u8 = 8;
/// `--`
pub const MINUS_MINUS: u8 = 9;
/// `&`
pub const AMPERSAND: u8 = 10;
/// `*`
pub const ASTERISK: u8 = 11;
/// `+`
pub const PLUS: u8 = 12;
/// `-`
pub const MINUS: u8 = 13;
/// `~`
pub const TILDE: u8 = 14;
/// `!`
pub const EXCLAMATION: u8 = 15;
/// `/`
pub const SLASH: u8 = 16;
/// `%`
pub const PERCENT: u8 = 17;
/// `<<`
pub const SHIFT_LEFT: u8 = 18;
/// `>>`
pub const SHIFT_RIGHT: u8 = 19;
/// `<`
pub const LESS: u8 = 20;
/// `>`
pub const GREATER: u8 = 21;
/// `<=`
pub const LESS_EQUAL: u8 = 22;
/// `>=`
pub const GREATER_EQUAL: u8 = 23;
/// `==`
pub const EQUAL_EQUAL: u8 = 24;
/// `!=`
pub const NOT_EQUAL: u8 = 25;
/// `^`
pub const CARET: u8 = 26;
/// `|`
pub const BAR: u8 = 27;
/// `&&`
pub const AND_AND: u8 = 28;
/// `||`
pub const OR_OR: u8 = 29;
/// `?`
pub const QUESTION: u8 = 30;
/// `:`
pub const COLON: u8 = 31;
/// `;`
pub const SEMICOLON: u8 = 32;
/// `...`
pub const ELLIPSIS: u8 = 33;
/// `=`
pub const EQUAL: u8 = 34;
/// `*=`
pub const TIMES_EQUAL: u8 = 35;
/// `/=`
pub const OVER_EQUAL: u8 = 36;
/// `%=`
pub const REMAINDER_EQUAL: u8 = 37;
/// `+=`
pub const PLUS_EQUAL: u8 = 38;
/// `-=`
pub const MINUS_EQUAL: u8 = 39;
/// `<<=`
pub const SHIFT_LEFT_EQUAL: u8 = 40;
/// `>>=`
pub const SHIFT_RIGHT_EQUAL: u8 = 41;
/// `&=`
pub const AND_EQUAL: u8 = 42;
/// `^=`
pub const XOR_EQUAL: u8 = 43;
/// `|=`
pub const OR_EQUAL: u8 = 44;
/// `,`
pub const COMMA: u8 = 45;
