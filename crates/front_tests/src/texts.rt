use c_lexer::lex;
use c_syntax::{Token, TokenKind};
use c_values::IntType;
use std::alloc::{AllocError, Global};
use std::test::Fail;
use sv_base::{FaultKind, FileId, FrontFault, Names, Place, SourceFault};

/// Texts, each with its tokens behind a `|`: what a token is, its value, the number of its presumed name, its line and its
/// column. `f.c` is the name 0.
const TOKENS: &str = "\
|end 0 0 1 1~\
int x;|word 17 0 1 1 name 0 0 1 5 mark 32 0 1 6 end 0 0 1 7~\
a+++b|name 0 0 1 1 mark 8 0 1 2 mark 12 0 1 4 name 0 0 1 5 end 0 0 1 6~\
x<<=1>>=2<<3>>4|name 0 0 1 1 mark 40 0 1 2 int 1 0 1 5 mark 41 0 1 6 int 2 0 1 9 mark 18 0 1 10 \
int 3 0 1 12 mark 19 0 1 13 int 4 0 1 15 end 0 0 1 16~\
0 00 07 10 2147483647 2147483648 4294967296 9223372036854775807|int 0 0 1 1 int 0 0 1 3 int 7 0 1 6 \
int 10 0 1 9 int 2147483647 0 1 12 long-long 2147483648 0 1 23 long-long 4294967296 0 1 34 \
long-long 9223372036854775807 0 1 45 end 0 0 1 64~\
0x7fffffff 0x80000000 0xffffffff 0x100000000 0x8000000000000000 0xFFFFFFFFFFFFFFFF 0x1e|int 2147483647 0 1 1 \
unsigned 2147483648 0 1 12 unsigned 4294967295 0 1 23 long-long 4294967296 0 1 34 \
unsigned-long-long 9223372036854775808 0 1 46 unsigned-long-long 18446744073709551615 0 1 65 \
int 30 0 1 84 end 0 0 1 88~\
1u 1L 1ul 1LU 1ll 1LL 1ULL 1llu 4294967296u 037777777777 040000000000 18446744073709551615u 2147483648l|unsigned 1 0 1 1 \
long 1 0 1 4 unsigned-long 1 0 1 7 unsigned-long 1 0 1 11 long-long 1 0 1 15 long-long 1 0 1 19 \
unsigned-long-long 1 0 1 23 unsigned-long-long 1 0 1 28 unsigned-long-long 4294967296 0 1 33 \
unsigned 4294967295 0 1 45 long-long 4294967296 0 1 58 unsigned-long-long 18446744073709551615 0 1 71 \
long-long 2147483648 0 1 93 end 0 0 1 104~\
'a' '\\n' '\\0' '\\377' '\\x7f' '\\'' '\"' '\\\\' '\\?' '\\x00041'|character 97 0 1 1 \
character 10 0 1 5 character 0 0 1 10 character -1 0 1 15 character 127 0 1 22 character 39 0 1 29 \
character 34 0 1 34 character 92 0 1 38 character 63 0 1 43 character 65 0 1 48 end 0 0 1 57~\
\"\" \"a\\\"b\" \"/* */\" \"\\1234\"|text 0 0 1 1 text 0 0 1 4 text 0 0 1 11 text 0 0 1 19 end 0 0 1 26~\
a/**/b//c\nd/***/e/*\n\n*/f|name 0 0 1 1 name 0 0 1 6 name 0 0 2 1 name 0 0 2 7 name 0 0 4 3 end 0 0 4 4~\
a /* x\ny */ # 5 \"q\"\nb|name 0 0 1 1 name 0 1 5 1 end 0 1 5 2~\
# 7 \"x.c\"\na\nb\n#line 100\nc\n#line 3 \"y.c\"\nd|name 0 1 7 1 name 0 1 8 1 name 0 1 100 1 \
name 0 2 3 1 end 0 2 3 2~\
\x20#pragma once\n#\n # 1 \"a\\\\b\\\"c\" 1 3 4\nz|name 0 1 1 1 end 0 1 1 2~\
.....->--|mark 33 0 1 1 mark 6 0 1 4 mark 6 0 1 5 mark 7 0 1 6 mark 9 0 1 8 end 0 0 1 10~\
L x L \"a\"|name 0 0 1 1 name 0 0 1 3 name 0 0 1 5 text 0 0 1 7 end 0 0 1 10~\
#line 9|end 0 0 9 8~\
/* */ # 4 \"n\" // x\nq|name 0 1 4 1 end 0 1 4 2~\
a\r\nb\tc|name 0 0 1 1 name 0 0 2 1 name 0 0 2 3 end 0 0 2 4~\
_Bool while whilex|word 34 0 1 1 word 33 0 1 7 name 0 0 1 13 end 0 0 1 19~\
# 0 \"f.c\"\na\n# 6 \"g.c\"\nb\n# 8 \"f.c\"\nc|name 0 0 0 1 name 0 1 6 1 name 0 0 8 1 end 0 0 8 2~\
a<:0:> <%%>|name 0 0 1 1 mark 0 0 1 2 int 0 0 1 4 mark 1 0 1 5 mark 4 0 1 8 mark 5 0 1 10 end 0 0 1 12";

/// Texts that have no token at their first byte, or one that means nothing.
const WRONG: &str = "\
@~'~'a~\"a\nb\"~''~'\\400'~'\\x100'~'\\q'~'\\x'~0x~0X~08~1uu~1lL~18446744073709551616~\
9223372036854775808~1a~0xe+1~/* a~# x~#include <a>~# 1~# 2147483648 \"a\"~#line~#line 1 x~\
# 1 \"a\" x~# 1 \"a\" 1x~`~# 1 \"a\n\"~/*/";

/// Floating constants, and what would be one.
const FLOATING: &str = "1.0~.5~1e5~0x1p3~1..2";

/// Literals that are not supported.
const WIDE: &str = "'ab'~\"\\u1234\"";

fn type_word(kind: IntType) -> &'static str {
    match kind {
        IntType::Int => "int",
        IntType::UInt => "unsigned",
        IntType::Long => "long",
        IntType::ULong => "unsigned-long",
        IntType::LongLong => "long-long",
        IntType::ULongLong => "unsigned-long-long",
        _ => "another",
    }
}

fn kind_word(kind: TokenKind) -> &'static str {
    match kind {
        TokenKind::Word(_) => "word",
        TokenKind::Name => "name",
        TokenKind::Number { kind, .. } => type_word(kind),
        TokenKind::Character(_) => "character",
        TokenKind::Text => "text",
        TokenKind::Mark(_) => "mark",
        TokenKind::End => "end",
    }
}

fn value_of(kind: TokenKind) -> i128 {
    match kind {
        TokenKind::Word(number) | TokenKind::Mark(number) => i128::from(number),
        TokenKind::Number { value, .. } => i128::from(value),
        TokenKind::Character(value) => i128::from(value),
        _ => 0,
    }
}

fn is_word(word: Option<&str>, other: &str) -> bool {
    match word {
        Some(word) => word == other,
        None => false,
    }
}

fn is_number(word: Option<&str>, number: i128) -> bool {
    match word {
        Some(word) => word.parse::<i128>() == Ok(number),
        None => false,
    }
}

fn are_listed(tokens: &[Token], listed: &str) -> bool {
    let mut words = listed.split(' ');
    let mut are_same = true;
    for token in tokens {
        let place = token.place;
        are_same = is_word(words.next(), kind_word(token.kind)) && are_same;
        are_same = is_number(words.next(), value_of(token.kind)) && are_same;
        are_same = is_number(words.next(), i128::from(place.file.0)) && are_same;
        are_same = is_number(words.next(), i128::from(place.line)) && are_same;
        are_same = is_number(words.next(), i128::from(place.col)) && are_same;
    }
    are_same && words.next().is_none()
}

/// The list of names with the file's own.
fn own_name(alloc: Global) -> Option<Names> {
    let mut names = Names::new(alloc);
    match names.number_of(alloc, b"f.c") {
        Ok(_) => Some(names),
        Err(_) => None,
    }
}

fn has_tokens(alloc: Global, source: &str, listed: &str) -> bool {
    let Some(mut names) = own_name(alloc) else {
        return false;
    };
    match lex(alloc, source.as_bytes(), FileId(0), &mut names, 1000) {
        Ok(tokens) => are_listed(tokens.list.as_slice(), listed),
        Err(_) => false,
    }
}

/// Whether the row's text has the row's tokens.
fn has_row(alloc: Global, row: &str) -> bool {
    let mut parts = row.split('|');
    match (parts.next(), parts.next()) {
        (Some(source), Some(listed)) => has_tokens(alloc, source, listed),
        _ => false,
    }
}

/// The fault of a text, and whether it has one.
fn fault_in(alloc: Global, names: &mut Names, bytes: &[u8], room: u32) -> Option<SourceFault> {
    match lex(alloc, bytes, FileId(0), names, room) {
        Err(FrontFault::Fault(fault)) => Some(fault),
        _ => None,
    }
}

fn is_refused(alloc: Global, source: &str, kind: FaultKind, place: Place) -> bool {
    match own_name(alloc) {
        Some(mut names) => fault_in(alloc, &mut names, source.as_bytes(), 1000)
            == Some(SourceFault { kind, place }),
        None => false,
    }
}

/// A place in a file.
fn at(file: u16, line: u32, col: u32) -> Place {
    Place {
        file: FileId(file),
        line,
        col,
    }
}

/// How many tokens a text has, its end not counted.
fn count_in(alloc: Global, names: &mut Names, bytes: &[u8], room: u32) -> Option<usize> {
    match lex(alloc, bytes, FileId(0), names, room) {
        Ok(tokens) => tokens.list.as_slice().len().checked_sub(1),
        Err(_) => None,
    }
}

/// The byte, as often as two to this power.
fn doubled(alloc: Global, byte: u8, times: u32) -> Result<Vec<u8>, AllocError> {
    let mut bytes = Vec::new(alloc);
    bytes.extend_from_slice(&[byte])?;
    for _ in 0..times {
        let half = Vec::from_slice(alloc, bytes.as_slice())?;
        bytes.extend_from_slice(half.as_slice())?;
    }
    Ok(bytes)
}

#[test]
fn cuts_texts_into_tokens(rt: HostRuntime) -> Result<(), Fail> {
    for row in TOKENS.split('~') {
        assert_eq!(rt; (row, has_row(rt.alloc(), row)), (row, true));
    }
    Ok(())
}

#[test]
fn refuses_what_is_no_token(rt: HostRuntime) -> Result<(), Fail> {
    for source in WRONG.split('~') {
        assert_eq!(rt;
            (
                source,
                is_refused(rt.alloc(), source, FaultKind::Lex, at(0, 1, 1))
            ),
            (source, true)
        );
    }
    for source in FLOATING.split('~') {
        assert_eq!(rt;
            (
                source,
                is_refused(rt.alloc(), source, FaultKind::Unsupported(1), at(0, 1, 1))
            ),
            (source, true)
        );
    }
    for source in WIDE.split('~') {
        assert_eq!(rt;
            (
                source,
                is_refused(rt.alloc(), source, FaultKind::Unsupported(3), at(0, 1, 1))
            ),
            (source, true)
        );
    }
    Ok(())
}

#[test]
fn tells_the_place_of_the_first_fault(rt: HostRuntime) -> Result<(), Fail> {
    for (source, kind, file, line, col) in [
        ("a\n  $", FaultKind::Lex, 0, 2, 3),
        ("L'a'", FaultKind::Unsupported(3), 0, 1, 2),
        ("L''", FaultKind::Lex, 0, 1, 2),
        ("L\"\\400\"", FaultKind::Lex, 0, 1, 2),
        ("a /* b", FaultKind::Lex, 0, 1, 3),
        ("a # 1", FaultKind::Lex, 0, 1, 3),
        ("a \\", FaultKind::Lex, 0, 1, 3),
        ("# 5 \"f\"\n  @", FaultKind::Lex, 1, 5, 3),
        ("#line 2147483647\n\n ?@", FaultKind::Lex, 0, 2147483648, 3),
    ] {
        assert_eq!(rt;
            (
                source,
                is_refused(rt.alloc(), source, kind, at(file, line, col))
            ),
            (source, true)
        );
    }
    Ok(())
}

#[test]
fn counts_tokens_and_bytes(rt: HostRuntime) -> Result<(), Fail> {
    let alloc = rt.alloc();
    let mut names = Names::new(alloc);
    names.number_of(alloc, b"f.c")?;
    assert_eq!(rt; count_in(alloc, &mut names, b"a b c\n", 3), Some(3));
    let kind = FaultKind::Limit(3);
    let place = at(0, 1, 5);
    assert_eq!(rt;
        fault_in(alloc, &mut names, b"a b c\n", 2),
        Some(SourceFault { kind, place })
    );
    let mut bytes = doubled(alloc, b'a', 16)?;
    assert_eq!(rt; count_in(alloc, &mut names, bytes.as_slice(), 9), Some(1));
    bytes.extend_from_slice(b"a")?;
    let kind = FaultKind::Limit(12);
    let place = at(0, 1, 1);
    assert_eq!(rt;
        fault_in(alloc, &mut names, bytes.as_slice(), 9),
        Some(SourceFault { kind, place })
    );
    let mut bytes = doubled(alloc, b'/', 24)?;
    assert_eq!(rt; count_in(alloc, &mut names, bytes.as_slice(), 0), Some(0));
    bytes.extend_from_slice(b"/")?;
    let kind = FaultKind::Limit(1);
    let place = at(0, 0, 0);
    assert_eq!(rt;
        fault_in(alloc, &mut names, bytes.as_slice(), 0),
        Some(SourceFault { kind, place })
    );
    Ok(())
}

#[test]
fn counts_names(rt: HostRuntime) -> Result<(), Fail> {
    let alloc = rt.alloc();
    let mut names = Names::new(alloc);
    for number in 0u16..65_534 {
        names.number_of(alloc, &number.to_be_bytes())?;
    }
    assert_eq!(rt; count_in(alloc, &mut names, b"# 1 \"last\"\na", 9), Some(1));
    assert_eq!(rt; count_in(alloc, &mut names, b"# 1 \"last\"\na", 9), Some(1));
    let kind = FaultKind::Limit(13);
    let place = at(0, 1, 3);
    assert_eq!(rt;
        fault_in(alloc, &mut names, b"  # 1 \"more\"\na", 9),
        Some(SourceFault { kind, place })
    );
    Ok(())
}
