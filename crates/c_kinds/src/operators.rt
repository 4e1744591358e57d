//! The classes of operators, and the level at which a binary one binds.

ghost use Rattle.std.specs.Prelude.{◌≡◌, is_some, option_map};
ghost use Rattle.c_grammar.specs.Operators.{found, found_for, is_at_level, binary_operators, unary_operators, assignment_operators};

use c_syntax::marks;
use c_tree::LexemeKind;
use c_values::Op;

/// How loosely a binary operator binds, from 0 for `*` to 9 for `||` (ISO/IEC 9899:1999, 6.5.5 to 6.5.14).
fn level_of(mark: u8) -> Option<u8>
    ensures { result ≡ option_map (λ operator. operator.level) (found binary_operators mark) }
{
    match mark {
        marks::ASTERISK | marks::SLASH | marks::PERCENT => Some(0),
        marks::PLUS | marks::MINUS => Some(1),
        marks::SHIFT_LEFT | marks::SHIFT_RIGHT => Some(2),
        marks::LESS | marks::GREATER | marks::LESS_EQUAL | marks::GREATER_EQUAL => Some(3),
        marks::EQUAL_EQUAL | marks::NOT_EQUAL => Some(4),
        marks::AMPERSAND => Some(5),
        marks::CARET => Some(6),
        marks::BAR => Some(7),
        marks::AND_AND => Some(8),
        marks::OR_OR => Some(9),
        _ => None,
    }
}

/// Whether it is a binary operator of the level.
pub fn is_binary(level: u8, kind: &LexemeKind) -> bool
    ensures { result ≡ is_at_level level (found_for binary_operators kind.now) }
{
    match kind {
        LexemeKind::Mark(mark) => match level_of(*mark) {
            Some(its_own) => its_own == level,
            None => false,
        },
        _ => false,
    }
}

/// Whether it is a unary operator other than `++`, `--` and `sizeof` (6.5.3).
pub fn is_unary(kind: &LexemeKind) -> bool
    ensures { result ≡ is_some (found_for unary_operators kind.now) }
{
    match kind {
        LexemeKind::Mark(mark) => matches!(
            *mark,
            marks::AMPERSAND
                | marks::ASTERISK
                | marks::PLUS
                | marks::MINUS
                | marks::TILDE
                | marks::EXCLAMATION
        ),
        _ => false,
    }
}

/// Whether it is an assignment operator (6.5.16).
pub fn is_assignment(kind: &LexemeKind) -> bool
    ensures { result ≡ is_some (found_for assignment_operators kind.now) }
{
    assigned_by(kind).is_some()
}

/// Of an assignment operator (6.5.16), what a compound one applies.
pub fn assigned_by(kind: &LexemeKind) -> Option<Option<Op>>
    ensures { result ≡ found_for assignment_operators kind.now }
{
    match kind {
        LexemeKind::Mark(mark) => assigned_by_mark(*mark),
        _ => None,
    }
}

fn assigned_by_mark(mark: u8) -> Option<Option<Op>>
    ensures { result ≡ found assignment_operators mark }
{
    match mark {
        marks::EQUAL => Some(None),
        marks::TIMES_EQUAL => Some(Some(Op::Mul)),
        marks::OVER_EQUAL => Some(Some(Op::Div)),
        marks::REMAINDER_EQUAL => Some(Some(Op::Rem)),
        marks::PLUS_EQUAL => Some(Some(Op::Add)),
        marks::MINUS_EQUAL => Some(Some(Op::Sub)),
        marks::SHIFT_LEFT_EQUAL => Some(Some(Op::Shl)),
        marks::SHIFT_RIGHT_EQUAL => Some(Some(Op::Shr)),
        marks::AND_EQUAL => Some(Some(Op::And)),
        marks::XOR_EQUAL => Some(Some(Op::Xor)),
        marks::OR_EQUAL => Some(Some(Op::Or)),
        _ => None,
    }
}
