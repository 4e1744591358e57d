//! What the parser makes of whole files.

use c_lexer::lex;
use c_parser::parse;
use std::alloc::{AllocError, Global};
use std::test::Fail;
use sv_base::{FaultKind, FrontFault, Names, SourceFault};

/// Files, each with what comes of it: the number of external declarations, or the fault with its line and column.
const SOURCES: &str = "\
double x;|unsupported 1 1:1$\
int main(void){ return 0;|syntax 0 1:26$\
int main(void){ return 0 0; }|syntax 0 1:26$\
# 10 \"x.h\"\nint a[2];\nint main(void){\n return 0\n}|syntax 0 13:1$\
_Complex c;|unsupported 2 1:1$\
int main(void){ goto x; }|unsupported 5 1:17$\
int main(void){ x: ; }|unsupported 5 1:18$\
typedef int T; int main(void){ T: ; }|unsupported 5 1:33$\
struct s { int a : 3; };|unsupported 6 1:18$\
int x = sizeof(int){1};|unsupported 8 1:20$\
int main(void){ return (int){1}; }|unsupported 8 1:29$\
asm(\"x\");|unsupported 9 1:1$\
int f(a, b) int a; { }|unsupported 11 1:7$\
int x = sizeof(int (y));|unsupported 11 1:21$\
typedef int T; static T[3];|syntax 0 1:24$\
typedef int T; const *T; const (T); static x, T;|tree 4$\
typedef int T; int f(int (T), int (*T)(T), T (x), int T);|syntax 0 1:44$\
void f(void) { if (a) if (b) c(); else d(); else e(); } else|syntax 0 1:57$\
void f(void) { if (a) while (b) if (c) d(); else e(); else g(); }|tree 1$\
int (*f(int a))(int b) { return a; }|tree 1$\
int f(void), g(int a, ...), h(void x);|tree 1$\
int f(void, int);|tree 1$\
int f(..., int);|syntax 0 1:7$\
int a = { };|syntax 0 1:11$\
int a = { 1, [2] = 3, .b[4] = { 5 }, };|tree 1$\
int main(void){ a + b = c; }|syntax 0 1:23$\
int main(void){ (a) = b = c; }|tree 1$\
int main(void){ switch (1) d(); }|syntax 0 1:28$\
struct { } s;|syntax 0 1:10$\
struct { int; } s;|syntax 0 1:13$\
static;|tree 1$\
enum e { A, B = A, }; ;;|tree 1$\
enum { };|syntax 0 1:8$\
int main(void){ for (int i = 0; ; ) do ; while (i); }|tree 1$\
typedef int T; void f(int T) { T = 1; } T x; void g(T T) { T x; }|syntax 0 1:62$\
int a[static 3];|syntax 0 1:7$\
char *s = \"a\\n\" \"b\"; int x = \"c\"[0] + 'd';|tree 2$\
x;|syntax 0 1:1$\
int main(void) { 3 4|syntax 0 1:20$\
|tree 0$\
int f(int x) { return x ? x : -x; } int g; struct s { union { int i; } u; } t; int h(void) { return sizeof t; }|tree 4$\
typedef int T; T x; int y = sizeof(T);|tree 3$\
typedef int T; int T[3];|tree 2$\
typedef int T; void f(void) { int T; T = 1; }|tree 2$\
typedef int T; void f(void) { { int T; } T x; }|tree 2$\
typedef int T; void f(void) { { int T; } T = 1; }|syntax 0 1:44$\
typedef int T; void f(void) { int T; { typedef int T; T x; } T = 1; }|tree 2$\
typedef int T; void f(void) { enum { T } y; T + 1; }|tree 2$\
typedef int T; enum { A = sizeof(T), T };|tree 2$\
typedef int T; void f(void) { for (int T = 0; T; ) T++; T x; }|tree 2$\
typedef int T; int f(int T) { return T; } T x;|tree 3$\
typedef int T; int f(int T); T x;|tree 3$\
typedef int T; int (*f(int a))(int T) { T x; return 0; }|tree 2$\
typedef int T; int (*f(int T))(int a) { T = 1; return 0; }|tree 2$\
typedef int T; static int T[2];|tree 2$\
typedef int T; int f(T, T (T), int (*)(T));|tree 2$\
typedef int T; struct s { T T; T u; };|tree 2$\
typedef int T; int x = (T)1 + sizeof(T *);|tree 2$\
typedef int T; void f(void) { T; T T; T = 1; }|tree 2$\
a.b;|syntax 0 1:1$\
int x = f(a, b)[1].c->d++ --;|tree 1$\
int x = f(a b);|syntax 0 1:13$\
int x = a[1;|syntax 0 1:12$\
int x = a.1;|unsupported 1 1:10$\
int x = a->(b);|syntax 0 1:12$\
int x = (a;|syntax 0 1:11$\
int x = \"a\" \"b\" 'c';|syntax 0 1:17$\
int x = ++ -- ~ ! * & - + sizeof a;|tree 1$\
int x = sizeof (a) + sizeof a++;|tree 1";

/// Files with parts that repeat: what stands first, what repeats, what stands in the middle, what repeats behind it, what stands last,
/// how often, and what comes of it.
const REPEATED: &str = "\
int main(void){ return |(|0|)|; }|253|tree 1$\
int main(void){ return |(|0|)|; }|254|limit 4 1:278$\
int main(void){ |while(1)|;|| }|12|tree 1$\
int main(void){ |while(1)|;|| }|13|limit 5 1:113$\
int main(void){ return |(|sizeof(int)|)|; }|253|tree 1$\
int main(void){ return |(|sizeof(int)|)|; }|254|limit 4 1:278$\
int main(void){ return |(|sizeof(int)+1|)|; }|252|tree 1$\
int main(void){ return |(|sizeof(int)+1|)|; }|253|limit 4 1:288$\
int main(void){ return |(|sizeof(x)|)|; }|251|tree 1$\
int main(void){ return |(|sizeof(x)|)|; }|252|limit 4 1:283$\
int main(void){ return |(|sizeof(x)|)|; }|253|limit 4 1:283$\
int main(void){ return a|++|||; }|253|tree 1$\
int main(void){ return a|++|||; }|254|limit 4 1:531$\
int main(void){ return a|++|||; }|3000|limit 4 1:531$\
int main(void){ a|+a|||;}|253|tree 1$\
int main(void){ a|+a|||;}|254|limit 4 1:524$\
int main(void)|{||}||256|tree 1$\
int main(void)|{||}||257|limit 4 1:271$\
int |(|a|)|;|255|tree 1$\
int |(|a|)|;|256|limit 4 1:261$\
|struct{|int a;|}a;||255|tree 1$\
|struct{|int a;|}a;||256|limit 4 1:1797$\
int a = |{|0|}|;|255|limit 4 1:264$\
int a = |{|0|}|;|256|limit 4 1:265$\
int main(void){ |do ||||13|limit 5 1:53$\
int main(void){ |while(1)|@|||14|lex 0 1:129";

fn put_kind(out: &mut String, kind: FaultKind) -> Result<(), AllocError> {
    match kind {
        FaultKind::Lex => out.push_str("lex 0"),
        FaultKind::Syntax => out.push_str("syntax 0"),
        FaultKind::Unsupported(code) => write!(out, "unsupported {code}"),
        FaultKind::Limit(code) => write!(out, "limit {code}"),
        FaultKind::Typing(code) => write!(out, "type {code}"),
        FaultKind::Link(code) => write!(out, "link {code}"),
    }
}

fn put_fault(out: &mut String, fault: SourceFault) -> Result<(), AllocError> {
    put_kind(out, fault.kind)?;
    let line = fault.place.line;
    let col = fault.place.col;
    write!(out, " {line}:{col}")
}

/// The number of external declarations in a file.
fn count(alloc: Global, bytes: &[u8]) -> Result<usize, FrontFault> {
    let mut names = Names::new(alloc);
    let Ok(name) = names.number_of(alloc, b"t.c") else {
        return Err(FrontFault::NoMemory);
    };
    let tokens = lex(alloc, bytes, name, &mut names, 1_000_000)?;
    let tree = parse(alloc, &tokens, bytes)?;
    Ok(tree.items.len())
}

/// What comes of a file.
fn outcome(alloc: Global, source: &str) -> Result<String, AllocError> {
    let mut out = String::new(alloc);
    match count(alloc, source.as_bytes()) {
        Ok(count) => write!(out, "tree {count}")?,
        Err(FrontFault::Fault(fault)) => put_fault(&mut out, fault)?,
        Err(FrontFault::NoMemory) => out.push_str("no memory")?,
    }
    Ok(out)
}

fn push_often(out: &mut String, part: &str, count: usize) -> Result<(), AllocError> {
    for _ in 0..count {
        out.push_str(part)?;
    }
    Ok(())
}

/// Whether the file of a row comes to what the row says.
fn has_outcome(alloc: Global, row: &str) -> Result<bool, AllocError> {
    let mut parts = row.split('|');
    let (Some(first), Some(before), Some(middle), Some(behind)) = (
        parts.next(),
        parts.next(),
        parts.next(),
        parts.next(),
    ) else {
        return Ok(false);
    };
    let (Some(last), Some(often), Some(expected)) = (parts.next(), parts.next(), parts.next())
    else {
        return Ok(false);
    };
    let count = often.parse::<usize>().unwrap_or(0);
    let mut source = String::new(alloc);
    source.push_str(first)?;
    push_often(&mut source, before, count)?;
    source.push_str(middle)?;
    push_often(&mut source, behind, count)?;
    source.push_str(last)?;
    let answer = outcome(alloc, source.as_str())?;
    Ok(answer.as_str() == expected)
}

#[test]
fn reads_files(rt: HostRuntime) -> Result<(), Fail> {
    for row in SOURCES.split('$') {
        if let Some((source, expected)) = row.split_once('|') {
            let answer = outcome(rt.alloc(), source)?;
            assert_eq!(rt; (source, answer.as_str()), (source, expected));
        }
    }
    Ok(())
}

#[test]
fn stops_at_the_limits(rt: HostRuntime) -> Result<(), Fail> {
    for row in REPEATED.split('$') {
        assert!(rt; has_outcome(rt.alloc(), row)?, "{row}");
    }
    Ok(())
}
