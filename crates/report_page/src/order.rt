use report_view::Site;
use std::alloc::{AllocError, Global};

/// The place of a site in a page. Places are in order of files, lines and columns.
#[derive(Clone, Copy, PartialEq, Eq, PartialOrd, Ord)]
pub(crate) struct Placed<'a> {
    pub(crate) file: &'a [u8],
    pub(crate) line: u32,
    pub(crate) col: u32,
    /// The number of the site in the report, from 0.
    pub(crate) number: usize,
}

/// The places of all sites, in order.
pub(crate) fn places_of<'a>(
    alloc: Global,
    sites: &'a [Site],
) -> Result<Vec<Placed<'a>>, AllocError> {
    let mut places = Vec::new(alloc);
    for (number, site) in sites.iter().enumerate() {
        places.push(Placed {
            file: site.line.file.as_slice(),
            line: site.line.line,
            col: site.line.col,
            number,
        })?;
    }
    places.sort()?;
    Ok(places)
}

/// Where the places of a file end, among places that begin with it or with files before it.
pub(crate) fn end_of_file(places: &[Placed], file: &[u8]) -> usize {
    places.partition_point(|place| place.file <= file)
}

/// Where the places up to a line end, among those of one file.
pub(crate) fn end_of_line(places: &[Placed], line: u32) -> usize {
    places.partition_point(|place| place.line <= line)
}

/// The places from one number up to another; none where there are none.
pub(crate) fn between<'p, 'a>(
    places: &'p [Placed<'a>],
    start: usize,
    end: usize,
) -> &'p [Placed<'a>] {
    let end = end.min(places.len());
    if start < end {
        &places[start..end]
    } else {
        &places[..0]
    }
}
