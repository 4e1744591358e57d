ghost use Rattle.std.specs.Prelude.{◌≡◌, ◌≤◌, ◌<◌, ◌-◌, ◌∷◌, [], true, not, length, take, drop, map, position};
ghost use Rattle.std.specs.List.{list_all};
ghost use Rattle.std.specs.Str.{bytes_eq};
ghost use Rattle.c_syntax.specs.Keywords.{keywords, keyword_number, begins_with};

/// The keywords in the order of their numbers.
const KEYWORDS: [&[u8]; 37] = [
    b"auto",
    b"break",
    b"case",
    b"char",
    b"const",
    b"continue",
    b"default",
    b"do",
    b"double",
    b"else",
    b"enum",
    b"extern",
    b"float",
    b"for",
    b"goto",
    b"if",
    b"inline",
    b"int",
    b"long",
    b"register",
    b"restrict",
    b"return",
    b"short",
    b"signed",
    b"sizeof",
    b"static",
    b"struct",
    b"switch",
    b"typedef",
    b"union",
    b"unsigned",
    b"void",
    b"volatile",
    b"while",
    b"_Bool",
    b"_Complex",
    b"_Imaginary",
];

/// The numbers of the keywords that begin with a byte: from the first up to the second, and without it.
fn range_of(first: u8) -> (usize, usize)
    ensures ordered { result.0 ≤ result.1 }
    ensures within { result.1 ≤ 37 }
    ensures before { list_all (λ word. not (begins_with first word)) (take result.0 keywords) ≡ true }
    ensures behind { list_all (λ word. not (begins_with first word)) (drop result.1 keywords) ≡ true }
{
    match first {
        b'a' => (0, 1),
        b'b' => (1, 2),
        b'c' => (2, 6),
        b'd' => (6, 9),
        b'e' => (9, 12),
        b'f' => (12, 14),
        b'g' => (14, 15),
        b'i' => (15, 18),
        b'l' => (18, 19),
        b'r' => (19, 22),
        b's' => (22, 28),
        b't' => (28, 29),
        b'u' => (29, 31),
        b'v' => (31, 33),
        b'w' => (33, 34),
        b'_' => (34, 37),
        _ => (0, 0),
    }
}

/// The place of the text among words.
fn place_among(text: &[u8], words: &[&[u8]]) -> Option<usize>
    ensures { result ≡ position (λ word. bytes_eq text.now word.now) words.now }
{
    words.iter().position(|word| text == *word)
}

/// The keywords of these numbers.
fn words_between(from: usize, to: usize) -> &'static [&'static [u8]]
    requires ordered { from ≤ to }
    requires within { to ≤ 37 }
    ensures { map (λ word. word.now) result.now ≡ take (to - from) (drop from keywords) }
{
    &KEYWORDS[from..to]
}

/// The number of a keyword: its place in the list of 6.4.1, from 0. Any other text has none.
pub fn keyword_number(text: &[u8]) -> Option<u8>
    ensures { result ≡ keyword_number text.now }
{
    let [first, ..] = text else {
        return None;
    };
    let (from, to) = range_of(*first);
    match place_among(text, words_between(from, to)) {
        Some(place) => Some((from + place) as u8),
        None => None,
    }
}
