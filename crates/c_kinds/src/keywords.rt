//! The classes of keywords, and the end of the file.

ghost use Rattle.std.specs.Prelude.{◌≡◌, [], ◌∷◌};
ghost use Rattle.c_grammar.specs.Tokens as tokens;
ghost use Rattle.c_grammar.specs.Words as d;

use c_syntax::words;
use c_tree::LexemeKind;

/// Whether it is the keyword.
pub fn is_word(word: u8, kind: &LexemeKind) -> bool
    ensures { result ≡ tokens.is_word word kind.now }
{
    match kind {
        LexemeKind::Word(number) => *number == word,
        _ => false,
    }
}

/// The number of a keyword, and 0 of any other token.
pub fn word_in(kind: &LexemeKind) -> u8
    ensures { result ≡ tokens.word_in kind.now }
{
    match kind {
        LexemeKind::Word(number) => *number,
        _ => 0,
    }
}

/// Whether it is a storage class other than `typedef` (ISO/IEC 9899:1999, 6.7.1), a qualifier (6.7.3) or `inline` (6.7.4).
pub fn is_plain_specifier(kind: &LexemeKind) -> bool
    ensures { result ≡ tokens.is_word_of (d.extern_word ∷ d.static_word ∷ d.auto_word ∷ d.register_word ∷ d.const_word ∷ d.volatile_word ∷ d.restrict_word ∷ d.inline_word ∷ []) kind.now }
{
    match kind {
        LexemeKind::Word(number) => matches!(
            *number,
            words::EXTERN
                | words::STATIC
                | words::AUTO
                | words::REGISTER
                | words::CONST
                | words::VOLATILE
                | words::RESTRICT
                | words::INLINE
        ),
        _ => false,
    }
}

/// Whether it is a word of the basic types that the profile has (6.7.2).
pub fn is_type_word(kind: &LexemeKind) -> bool
    ensures { result ≡ tokens.is_word_of (d.void_word ∷ d.char_word ∷ d.short_word ∷ d.int_word ∷ d.long_word ∷ d.signed_word ∷ d.unsigned_word ∷ d.bool_word ∷ []) kind.now }
{
    match kind {
        LexemeKind::Word(number) => matches!(
            *number,
            words::VOID
                | words::CHAR
                | words::SHORT
                | words::INT
                | words::LONG
                | words::SIGNED
                | words::UNSIGNED
                | words::BOOL
        ),
        _ => false,
    }
}

/// Whether it is `struct` or `union` (6.7.2.1).
pub fn is_record_word(kind: &LexemeKind) -> bool
    ensures { result ≡ tokens.is_word_of (d.struct_word ∷ d.union_word ∷ []) kind.now }
{
    is_word(words::STRUCT, kind) || is_word(words::UNION, kind)
}

/// Whether it is a qualifier (6.7.3).
pub fn is_qualifier(kind: &LexemeKind) -> bool
    ensures { result ≡ tokens.is_word_of (d.const_word ∷ d.volatile_word ∷ d.restrict_word ∷ []) kind.now }
{
    match kind {
        LexemeKind::Word(number) => {
            matches!(*number, words::CONST | words::VOLATILE | words::RESTRICT)
        }
        _ => false,
    }
}

/// Whether it is the end of the file.
pub fn is_end(kind: &LexemeKind) -> bool
    ensures { result ≡ tokens.is_end kind.now }
{
    matches!(kind, LexemeKind::End)
}
