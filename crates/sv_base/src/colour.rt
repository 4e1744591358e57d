/// What the report says of a site, that is of one access through an array or a pointer.
#[derive(Clone, Copy, Debug, PartialEq, Eq)]
pub enum Colour {
    /// No run reaches the site.
    Unreachable,
    /// Each access at the site lies inside its region.
    Green,
    /// Not decided.
    Orange,
    /// No run goes on past the site.
    Red,
}
