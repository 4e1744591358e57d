use sqlite_items::Items;
use sv_base::Colour;

/// What the report says of one site: its place, the function that it stands in, and its colour. `file` and `function` are
/// the names as they are printed.
#[derive(Debug, Drop)]
pub struct Line {
    pub file: Items<u8>,
    pub line: u32,
    pub col: u32,
    pub function: Items<u8>,
    pub colour: Colour,
}
