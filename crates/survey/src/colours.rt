ghost use Rattle.std.specs.Prelude.{◌≡◌, codes, IfOk};
ghost use Rattle.survey.specs.Colours.{size_at, is_inside, line_of, lines_of};

use first_form::{Array, Program, Store};
use report::Line;
use sqlite_items::{Items, at};
use std::alloc::{AllocError, Global};
use sv_base::Colour;

fn size_at(arrays: &[Array], number: usize) -> u32
    ensures { result ≡ size_at arrays.now number }
{
    match at(arrays, number) {
        Some(array) => array.size,
        None => 0,
    }
}

fn is_inside(arrays: &[Array], store: &Store) -> bool
    ensures { result ≡ is_inside arrays.now store.now }
{
    store.subscript < size_at(arrays, store.array)
}

fn line_of(alloc: Global, name: &[u8], store: &Store, colour: Colour) -> Result<Line, AllocError>
    ensures { IfOk result (λ line. line ≡ line_of name.now store.now colour) }
{
    let file = Items::from_slice(alloc, name)?;
    let function = Items::from_slice(alloc, b"main")?;
    Ok(Line {
        file,
        line: store.line,
        col: store.col,
        function,
        colour,
    })
}

/// The line of each store, in the order of the sites.
pub(crate) fn lines_of(
    alloc: Global,
    name: &[u8],
    program: &Program,
) -> Result<Items<Line>, AllocError>
    ensures { IfOk result (λ lines. lines ≡ lines_of name.now program.now) }
{
    let arrays = program.arrays.as_slice();
    let mut lines = Items::new(alloc);
    let mut is_past = false;
    for store in program.stores.as_slice() {
        let colour = if is_past {
            Colour::Unreachable
        } else if is_inside(arrays, store) {
            Colour::Green
        } else {
            Colour::Red
        };
        is_past = is_past || colour == Colour::Red;
        let line = line_of(alloc, name, store, colour)?;
        lines.push(line)?;
    }
    Ok(lines)
}
