ghost use Rattle.std.specs.Prelude.{◌≡◌};
ghost use Rattle.std.specs.List.{list_any};
ghost use Rattle.std.specs.Str.{bytes_eq};
ghost use Rattle.first_form.specs.Form.{is_reserved};

use c_syntax::keyword_number;

/// The words to which GCC gives a meaning of its own, and `main`.
const WORDS: [&[u8]; 16] = [
    b"__attribute__",
    b"__attribute",
    b"__extension__",
    b"__asm__",
    b"__asm",
    b"asm",
    b"__inline",
    b"__inline__",
    b"__restrict",
    b"__restrict__",
    b"__const",
    b"__volatile__",
    b"__signed__",
    b"__typeof__",
    b"__builtin_va_list",
    b"main",
];

/// Whether the text is one of the words.
fn is_among(text: &[u8], words: &[&[u8]]) -> bool
    ensures { result ≡ list_any (λ word. bytes_eq text.now word.now) words.now }
{
    words.iter().any(|word| text == *word)
}

/// Whether no array may have this name.
pub(crate) fn is_reserved(text: &[u8]) -> bool
    ensures { result ≡ is_reserved text.now }
{
    match keyword_number(text) {
        Some(_) => true,
        None => is_among(text, &WORDS),
    }
}
