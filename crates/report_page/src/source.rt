use crate::escape::push_html;
use crate::marks::{Walk, push_mark};
use crate::order::{Placed, between, end_of_line};
use itoa::Buffer;
use report_view::{Site, push_pieces};
use sv_base::NoMemory;

/// Appends the lines of a source with the sites in them. Sites past its last line follow it.
pub(crate) fn push_source(
    text: &mut Vec<u8>,
    walk: &mut Walk,
    lines: &[&[u8]],
    places: &[Placed],
    sites: &[Site],
) -> Result<(), NoMemory> {
    let mut number = 0u32;
    let mut done = 0usize;
    text.extend_from_slice(b"<div class=\"source\">\n")?;
    for line in lines {
        number = number.saturating_add(1);
        let end = end_of_line(places, number);
        push_line(text, walk, number, line, between(places, done, end), sites)?;
        done = end;
    }
    text.extend_from_slice(b"</div>\n")?;
    let rest = between(places, done, places.len());
    push_without_source(text, walk, rest, sites)
}

/// Appends sites whose lines are not known, each with its line and column.
pub(crate) fn push_without_source(
    text: &mut Vec<u8>,
    walk: &mut Walk,
    places: &[Placed],
    sites: &[Site],
) -> Result<(), NoMemory> {
    if places.is_empty() {
        return Ok(());
    }
    text.extend_from_slice(b"<p>Sites in lines that the sources given do not have:</p>\n<ul>\n")?;
    for place in places {
        if let Some(site) = sites.get(place.number) {
            push_listed(text, walk, place, site)?;
        }
    }
    text.extend_from_slice(b"</ul>\n")?;
    Ok(())
}

fn push_listed(
    text: &mut Vec<u8>,
    walk: &mut Walk,
    place: &Placed,
    site: &Site,
) -> Result<(), NoMemory> {
    let mut line = Buffer::new();
    let mut col = Buffer::new();
    push_pieces(
        text,
        &[
            b"<li>line ",
            line.format(place.line).as_bytes(),
            b", column ",
            col.format(place.col).as_bytes(),
            b": ",
        ],
    )?;
    push_mark(text, walk, site, site.line.function.as_slice())?;
    text.extend_from_slice(b"</li>\n")?;
    Ok(())
}

fn push_line(
    text: &mut Vec<u8>,
    walk: &mut Walk,
    number: u32,
    line: &[u8],
    places: &[Placed],
    sites: &[Site],
) -> Result<(), NoMemory> {
    let mut digits = Buffer::new();
    let digits = digits.format(number).as_bytes();
    let line = line.strip_suffix(b"\r").unwrap_or(line);
    push_pieces(text, &[b"<span class=\"line\"><b>", digits, b"</b>"])?;
    let mut done = 0usize;
    for place in places {
        let start = (place.col as usize).saturating_sub(1);
        let end = start.saturating_add(1);
        push_html(text, piece(line, done, start))?;
        if let Some(site) = sites.get(place.number) {
            push_mark(text, walk, site, piece(line, done.max(start), end))?;
        }
        done = done.max(end);
    }
    push_html(text, piece(line, done, line.len()))?;
    text.extend_from_slice(b"</span>\n")?;
    Ok(())
}

/// The bytes of a line from one place up to another, as far as the line has them.
fn piece(line: &[u8], start: usize, end: usize) -> &[u8] {
    let end = end.min(line.len());
    if start < end { &line[start..end] } else { b"" }
}
