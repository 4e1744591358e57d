use crate::escape::push_html;
use crate::titles::{letter, promise};
use itoa::Buffer;
use report_view::{Site, colour_word, is_alarm, push_pieces};
use sv_base::NoMemory;

/// Where the page stands among the sites that want a look: they have the numbers 1 to `count`, in the order of the page.
#[derive(Clone, Copy)]
pub(crate) struct Walk {
    pub(crate) count: usize,
    /// How many of them the page has already.
    pub(crate) done: usize,
}

impl Walk {
    /// The numbers of the next site and of the one that it links to; the last one links to the first.
    fn step(&mut self) -> (usize, usize) {
        self.done = self.done.saturating_add(1);
        if self.done >= self.count {
            return (self.done, 1);
        }
        (self.done, self.done.saturating_add(1))
    }
}

/// Appends a site with its text in the source.
pub(crate) fn push_mark(
    text: &mut Vec<u8>,
    walk: &mut Walk,
    site: &Site,
    piece: &[u8],
) -> Result<(), NoMemory> {
    if is_alarm(site.line.colour) {
        let (number, next) = walk.step();
        push_link(text, number, next)?;
    } else {
        text.extend_from_slice(b"<span")?;
    }
    push_pieces(
        text,
        &[
            b" class=\"site ",
            colour_word(site.line.colour).as_bytes(),
            reviewed_class(site),
            b"\" title=\"",
        ],
    )?;
    push_title(text, site)?;
    text.extend_from_slice(b"\">")?;
    push_html(text, piece)?;
    push_pieces(
        text,
        &[
            b"<sup>",
            letter(site.line.colour),
            reviewed_letter(site),
            b"</sup>",
            closing(site),
        ],
    )
}

fn push_link(text: &mut Vec<u8>, number: usize, next: usize) -> Result<(), NoMemory> {
    let mut own = Buffer::new();
    let mut other = Buffer::new();
    push_pieces(
        text,
        &[
            b"<a id=\"a",
            own.format(number).as_bytes(),
            b"\" href=\"#a",
            other.format(next).as_bytes(),
            b"\"",
        ],
    )
}

fn closing(site: &Site) -> &'static [u8] {
    if is_alarm(site.line.colour) {
        b"</a>"
    } else {
        b"</span>"
    }
}

fn reviewed_class(site: &Site) -> &'static [u8] {
    if site.remark.is_some() {
        b" reviewed"
    } else {
        b""
    }
}

fn reviewed_letter(site: &Site) -> &'static [u8] {
    if site.remark.is_some() { b"*" } else { b"" }
}

/// Appends what the colour promises, the function, and the remark of a reviewer.
fn push_title(text: &mut Vec<u8>, site: &Site) -> Result<(), NoMemory> {
    push_pieces(text, &[promise(site.line.colour).as_bytes(), b" (in "])?;
    push_html(text, site.line.function.as_slice())?;
    text.extend_from_slice(b")")?;
    if let Some(remark) = site.remark {
        text.extend_from_slice(b", ")?;
        push_html(text, remark)?;
    }
    Ok(())
}
