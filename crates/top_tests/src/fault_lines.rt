use report::fault_text;
use std::test::Fail;
use sv_base::{FaultKind, Names, Place, SourceFault};

#[test]
fn writes_the_line_of_each_fault(rt: HostRuntime) -> Result<(), Fail> {
    let mut names = Names::new(rt.alloc());
    let file = names.number_of(rt.alloc(), b"t.c")?;
    let place = Place {
        file,
        line: 7,
        col: 26,
    };
    let mut text = Vec::new(rt.alloc());
    let lex = FaultKind::Lex;
    fault_text(&SourceFault { kind: lex, place }, &names, &mut text)?;
    let syntax = FaultKind::Syntax;
    fault_text(
        &SourceFault {
            kind: syntax,
            place,
        },
        &names,
        &mut text,
    )?;
    for code in 0..16 {
        let kind = FaultKind::Unsupported(code);
        fault_text(&SourceFault { kind, place }, &names, &mut text)?;
    }
    for code in 1..14 {
        let kind = FaultKind::Typing(code);
        fault_text(&SourceFault { kind, place }, &names, &mut text)?;
    }
    let place = Place::of_file(file);
    for code in 1..5 {
        let kind = FaultKind::Link(code);
        fault_text(&SourceFault { kind, place }, &names, &mut text)?;
    }
    for code in 1..14 {
        let kind = FaultKind::Limit(code);
        fault_text(&SourceFault { kind, place }, &names, &mut text)?;
    }
    assert_eq!(rt; text.as_slice(), LINES.as_bytes());
    Ok(())
}

const LINES: &str = "t.c:7:26: lex 0 no token
t.c:7:26: syntax 0 no rule
t.c:7:26: unsupported 0 form is not built yet
t.c:7:26: unsupported 1 floating type or constant
t.c:7:26: unsupported 2 complex type
t.c:7:26: unsupported 3 wide, universal or long character
t.c:7:26: unsupported 4 array of variable length
t.c:7:26: unsupported 5 goto or label
t.c:7:26: unsupported 6 bit-field
t.c:7:26: unsupported 7 flexible array member
t.c:7:26: unsupported 8 compound literal
t.c:7:26: unsupported 9 GNU word
t.c:7:26: unsupported 10 struct parameter or result
t.c:7:26: unsupported 11 old-style definition
t.c:7:26: unsupported 12 definition with variable arguments
t.c:7:26: unsupported 13 union
t.c:7:26: unsupported 14 case outside its switch
t.c:7:26: unsupported 15 setjmp or longjmp
t.c:7:26: type 1 operand types
t.c:7:26: type 2 name is not declared
t.c:7:26: type 3 name is declared otherwise
t.c:7:26: type 4 value does not convert
t.c:7:26: type 5 not an lvalue
t.c:7:26: type 6 number of arguments
t.c:7:26: type 7 size is not known
t.c:7:26: type 8 no constant
t.c:7:26: type 9 specifiers do not fit
t.c:7:26: type 10 member is not known
t.c:7:26: type 11 initialiser does not fit
t.c:7:26: type 12 address constant outside its array
t.c:7:26: type 13 statement is misplaced
t.c:0:0: link 1 entry is not defined
t.c:0:0: link 2 defined twice
t.c:0:0: link 3 declared with unlike types
t.c:0:0: link 4 object is not defined
t.c:0:0: limit 1 file bytes
t.c:0:0: limit 2 total bytes
t.c:0:0: limit 3 tokens of all files
t.c:0:0: limit 4 nesting of the tree
t.c:0:0: limit 5 nested loops
t.c:0:0: limit 6 functions
t.c:0:0: limit 7 sites
t.c:0:0: limit 8 object size in bytes
t.c:0:0: limit 9 region and leaf classes of all objects
t.c:0:0: limit 10 registers of one function
t.c:0:0: limit 11 parameters or arguments
t.c:0:0: limit 12 bytes of one token
t.c:0:0: limit 13 presumed names
";
