use crate::escape::push_html;
use itoa::Buffer;
use report_view::{Site, push_pieces};
use std::alloc::Global;
use std::collections::HashMap;
use sv_base::{Colour, NoMemory};

/// How many sites of each colour a function has.
#[derive(Clone, Copy)]
struct Counts<'a> {
    file: &'a [u8],
    function: &'a [u8],
    green: u32,
    orange: u32,
    red: u32,
    unreachable: u32,
}

/// Appends a table of the functions that have sites, in the order of their first ones.
pub(crate) fn push_summary(
    alloc: Global,
    text: &mut Vec<u8>,
    sites: &[Site],
) -> Result<(), NoMemory> {
    let rows = counts_of(alloc, sites)?;
    text.extend_from_slice(
        b"<table>\n<tr><th>file</th><th>function</th><th>green</th><th>orange</th><th>red</th><th>unreachable</th></tr>\n",
    )?;
    for row in rows.iter() {
        push_row(text, row)?;
    }
    text.extend_from_slice(b"</table>\n")?;
    Ok(())
}

fn counts_of<'a>(alloc: Global, sites: &'a [Site]) -> Result<Vec<Counts<'a>>, NoMemory> {
    let mut rows: Vec<Counts<'a>> = Vec::new(alloc);
    let mut numbers: HashMap<Vec<u8>, usize> = HashMap::new(alloc);
    for site in sites {
        let key = function_key(alloc, site)?;
        let number = row_number(&mut numbers, &mut rows, key, site)?;
        if let Some(row) = rows.get_mut(number) {
            count(row, site.line.colour);
        }
    }
    Ok(rows)
}

/// The number of a function's row, which is a new one where it has none yet.
fn row_number<'a>(
    numbers: &mut HashMap<Vec<u8>, usize>,
    rows: &mut Vec<Counts<'a>>,
    key: Vec<u8>,
    site: &'a Site,
) -> Result<usize, NoMemory> {
    if let Some(number) = numbers.get(key.as_slice()).copied() {
        return Ok(number);
    }
    let number = rows.len();
    rows.push(no_counts(site))?;
    numbers.insert(key, number)?;
    Ok(number)
}

fn function_key(alloc: Global, site: &Site) -> Result<Vec<u8>, NoMemory> {
    let mut key = Vec::new(alloc);
    push_pieces(
        &mut key,
        &[
            site.line.file.as_slice(),
            b" ",
            site.line.function.as_slice(),
        ],
    )?;
    Ok(key)
}

fn no_counts<'a>(site: &'a Site) -> Counts<'a> {
    Counts {
        file: site.line.file.as_slice(),
        function: site.line.function.as_slice(),
        green: 0,
        orange: 0,
        red: 0,
        unreachable: 0,
    }
}

fn count(row: &mut Counts, colour: Colour) {
    match colour {
        Colour::Green => row.green = row.green.saturating_add(1),
        Colour::Orange => row.orange = row.orange.saturating_add(1),
        Colour::Red => row.red = row.red.saturating_add(1),
        Colour::Unreachable => row.unreachable = row.unreachable.saturating_add(1),
    }
}

fn push_row(text: &mut Vec<u8>, row: &Counts) -> Result<(), NoMemory> {
    text.extend_from_slice(b"<tr><td>")?;
    push_html(text, row.file)?;
    text.extend_from_slice(b"</td><td>")?;
    push_html(text, row.function)?;
    text.extend_from_slice(b"</td>")?;
    push_count(text, row.green)?;
    push_count(text, row.orange)?;
    push_count(text, row.red)?;
    push_count(text, row.unreachable)?;
    text.extend_from_slice(b"</tr>\n")?;
    Ok(())
}

fn push_count(text: &mut Vec<u8>, count: u32) -> Result<(), NoMemory> {
    let mut digits = Buffer::new();
    let digits = digits.format(count).as_bytes();
    push_pieces(text, &[b"<td>", digits, b"</td>"])
}
