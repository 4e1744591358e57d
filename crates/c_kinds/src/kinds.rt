//! Tests of a token's kind, and what it carries.

ghost use Rattle.std.specs.Prelude.{◌≡◌, [], ◌∷◌};
ghost use Rattle.c_grammar.specs.Marks as m;
ghost use Rattle.c_grammar.specs.Tokens as tokens;
ghost use Rattle.c_grammar.specs.Trees as trees;
ghost use Rattle.c_kinds.specs.PostfixMarks.{operator_marks};

use c_syntax::marks;
use c_tree::LexemeKind;

/// Whether it is the punctuator with this number (`c_syntax::marks`).
pub fn is_mark(mark: u8, kind: &LexemeKind) -> bool
    ensures { result ≡ tokens.is_mark mark kind.now }
{
    match kind {
        LexemeKind::Mark(number) => *number == mark,
        _ => false,
    }
}

/// Whether it is `++` or `--`.
pub fn is_bump(kind: &LexemeKind) -> bool
    ensures { result ≡ tokens.is_mark_of (m.plus_plus ∷ m.minus_minus ∷ []) kind.now }
{
    is_mark(marks::PLUS_PLUS, kind) || is_mark(marks::MINUS_MINUS, kind)
}

/// Whether a postfix operator begins with it.
pub fn is_postfix(kind: &LexemeKind) -> bool
    ensures { result ≡ tokens.is_mark_of operator_marks kind.now }
{
    match kind {
        LexemeKind::Mark(number) => matches!(
            *number,
            marks::LEFT_BRACKET
                | marks::LEFT_PARENTHESIS
                | marks::PERIOD
                | marks::ARROW
                | marks::PLUS_PLUS
                | marks::MINUS_MINUS
        ),
        _ => false,
    }
}

/// Whether it is a name, a typedef name too.
pub fn is_name(kind: &LexemeKind) -> bool
    ensures { result ≡ tokens.is_name kind.now }
{
    matches!(kind, LexemeKind::Name(_))
}

/// Whether it is an integer constant.
pub fn is_number(kind: &LexemeKind) -> bool
    ensures { result ≡ tokens.is_number kind.now }
{
    matches!(kind, LexemeKind::Number(_, _))
}

/// Whether it is a character constant.
pub fn is_character(kind: &LexemeKind) -> bool
    ensures { result ≡ tokens.is_character kind.now }
{
    matches!(kind, LexemeKind::Character(_))
}

/// Whether it is a string literal.
pub fn is_text(kind: &LexemeKind) -> bool
    ensures { result ≡ tokens.is_text kind.now }
{
    matches!(kind, LexemeKind::Text(_))
}

/// The number of a name, and 0 of any other token.
pub fn name_in(kind: &LexemeKind) -> u32
    ensures { result ≡ tokens.name_in kind.now }
{
    match kind {
        LexemeKind::Name(number) => *number,
        _ => 0,
    }
}

/// The bytes of a text, and none of any other token.
pub fn bytes_in(kind: &LexemeKind) -> &[u8]
    ensures { result.now ≡ tokens.bytes_in kind.now }
{
    match kind {
        LexemeKind::Text(bytes) => bytes.as_slice(),
        _ => &[],
    }
}
