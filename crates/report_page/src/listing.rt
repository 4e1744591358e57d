use crate::escape::push_html;
use crate::order::Placed;
use crate::titles::promise;
use itoa::Buffer;
use report_view::{Site, is_alarm, push_pieces};
use sv_base::NoMemory;

/// Appends a list of the sites that want a look, with their remarks, so that a printed page has them too. The numbers of
/// their links are those of the walk over the page.
pub(crate) fn push_listing(
    text: &mut Vec<u8>,
    places: &[Placed],
    sites: &[Site],
) -> Result<(), NoMemory> {
    let mut number = 0usize;
    text.extend_from_slice(b"<h2>Accesses that want a look</h2>\n<ul>\n")?;
    for place in places {
        if let Some(site) = sites.get(place.number) {
            if is_alarm(site.line.colour) {
                number = number.saturating_add(1);
                push_entry(text, number, place, site)?;
            }
        }
    }
    text.extend_from_slice(b"</ul>\n")?;
    Ok(())
}

fn push_entry(
    text: &mut Vec<u8>,
    number: usize,
    place: &Placed,
    site: &Site,
) -> Result<(), NoMemory> {
    let mut link = Buffer::new();
    let link = link.format(number).as_bytes();
    push_pieces(text, &[b"<li><a href=\"#a", link, b"\">"])?;
    push_html(text, place.file)?;
    push_position(text, place)?;
    push_html(text, site.line.function.as_slice())?;
    push_pieces(text, &[b", ", promise(site.line.colour).as_bytes()])?;
    push_remark(text, site)?;
    text.extend_from_slice(b"</li>\n")?;
    Ok(())
}

/// Appends the line and the column, and ends the link.
fn push_position(text: &mut Vec<u8>, place: &Placed) -> Result<(), NoMemory> {
    let mut line = Buffer::new();
    let mut col = Buffer::new();
    push_pieces(
        text,
        &[
            b":",
            line.format(place.line).as_bytes(),
            b":",
            col.format(place.col).as_bytes(),
            b"</a> ",
        ],
    )
}

fn push_remark(text: &mut Vec<u8>, site: &Site) -> Result<(), NoMemory> {
    if let Some(remark) = site.remark {
        text.extend_from_slice(b", ")?;
        push_html(text, remark)?;
    }
    Ok(())
}
