use report::{Line, report_status, report_text, totals_text};
use sqlite_items::Items;
use std::alloc::{AllocError, Global};
use std::test::Fail;
use sv_base::Colour;

fn line(alloc: Global, file: &[u8], col: u32, colour: Colour) -> Result<Line, AllocError> {
    Ok(Line {
        file: Items::from_slice(alloc, file)?,
        line: 1,
        col,
        function: Items::from_slice(alloc, b"main")?,
        colour,
    })
}

#[test]
fn writes_reports(rt: HostRuntime) -> Result<(), Fail> {
    let alloc = rt.alloc();
    let mut lines = Vec::new(alloc);
    let mut text = Vec::new(alloc);
    lines.push(line(alloc, b"t.c", 28, Colour::Green)?)?;
    report_text(lines.as_slice(), &[], &mut text)?;
    assert_eq!(rt; report_status(lines.as_slice()), 0);
    assert_eq!(rt;
        text.as_slice(),
        b"t.c:1:28 main green
sites 1 green 1 orange 0 red 0 unreachable 0
"
            .as_slice()
    );

    lines.push(line(alloc, b"ring.h", 4_294_967_295, Colour::Unreachable)?)?;
    assert_eq!(rt; report_status(lines.as_slice()), 0);
    lines.push(line(alloc, b"t.c", 34, Colour::Orange)?)?;
    lines.push(line(alloc, b"t.c", 40, Colour::Red)?)?;
    lines.push(line(alloc, b"t.c", 50, Colour::Red)?)?;
    assert_eq!(rt; report_status(lines.as_slice()), 1);
    let mut assumed = Vec::new(alloc);
    assumed.push(Vec::from_slice(alloc, b"get")?)?;
    assumed.push(Vec::from_slice(alloc, b"abort")?)?;
    text.clear();
    report_text(lines.as_slice(), assumed.as_slice(), &mut text)?;
    totals_text(lines.as_slice(), &mut text)?;
    assert_eq!(rt;
        text.as_slice(),
        b"t.c:1:28 main green
ring.h:1:4294967295 main unreachable
t.c:1:34 main orange
t.c:1:40 main red
t.c:1:50 main red
assumed get
assumed abort
sites 5 green 1 orange 1 red 2 unreachable 1
sites 5 green 1 orange 1 red 2 unreachable 1
"
            .as_slice()
    );
    Ok(())
}
