use c_syntax::{keyword_number, words};
use std::test::Fail;

/// The keywords in the order in which the standard lists them (ISO/IEC 9899:1999, 6.4.1).
const WORDS: &str =
    "auto break case char const continue default do double else enum extern float for goto if inline int \
long register restrict return short signed sizeof static struct switch typedef union unsigned void volatile while \
_Bool _Complex _Imaginary";

/// Words that are none.
const NAMES: &str = "Auto aut autos ints in I _bool __restrict bool x1 _ main asm";

#[test]
fn numbers_the_keywords(rt: HostRuntime) -> Result<(), Fail> {
    let mut next = 0u8;
    for word in WORDS.split(' ') {
        assert_eq!(rt; keyword_number(word.as_bytes()), Some(next));
        next = next.wrapping_add(1);
    }
    assert_eq!(rt; next, 37);
    for name in NAMES.split(' ') {
        assert_eq!(rt; keyword_number(name.as_bytes()), None);
    }
    assert_eq!(rt; keyword_number(b""), None);
    assert_eq!(rt; keyword_number(b"do"), Some(words::DO));
    assert_eq!(rt; keyword_number(b"while"), Some(words::WHILE));
    assert_eq!(rt; keyword_number(b"_Imaginary"), Some(words::IMAGINARY));
    Ok(())
}
