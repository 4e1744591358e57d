use memchr::memrchr;
use std::str;
use sv_base::Colour;

/// What a line of a report says of a site.
#[derive(Clone, Copy)]
pub(crate) struct Fields<'a> {
    pub(crate) file: &'a [u8],
    pub(crate) line: u32,
    pub(crate) col: u32,
    pub(crate) function: &'a [u8],
    pub(crate) colour: Colour,
}

/// The fields of `FILE:LINE:COL FUNCTION COLOUR`.
pub(crate) fn fields_of(text: &[u8]) -> Option<Fields<'_>> {
    let (head, colour) = split_last(text, b' ')?;
    let (place, function) = split_last(head, b' ')?;
    let (place, col) = split_last(place, b':')?;
    let (file, line) = split_last(place, b':')?;
    Some(Fields {
        file,
        line: number_of(line)?,
        col: number_of(col)?,
        function,
        colour: colour_of(colour)?,
    })
}

/// What stands before and after the last of these bytes.
fn split_last(text: &[u8], byte: u8) -> Option<(&[u8], &[u8])> {
    let at = memrchr(byte, text)?;
    Some((text.get(..at)?, text.get(at.checked_add(1)?..)?))
}

fn number_of(digits: &[u8]) -> Option<u32> {
    str::from_utf8(digits).ok()?.parse::<u32>().ok()
}

fn colour_of(word: &[u8]) -> Option<Colour> {
    match word {
        b"unreachable" => Some(Colour::Unreachable),
        b"green" => Some(Colour::Green),
        b"orange" => Some(Colour::Orange),
        b"red" => Some(Colour::Red),
        _ => None,
    }
}
