use core_ir::{Artifact, Bounds};
use sv_base::{Colour, SiteId};
use transfer::Known;

/// How the findings of a round are put together with those of the round before.
#[derive(Clone, Copy, Debug, PartialEq, Eq)]
pub enum Phase {
    /// They are joined.
    Joining,
    /// They are joined, and what grew is widened.
    Widening,
    /// The new ones stand alone.
    Falling,
}

/// What a round knows beside a function: the context in which it is called, none where nothing calls it; the clusters of its registers;
/// and what its steps look up.
#[derive(Clone, Copy)]
pub struct Situation<'a> {
    pub context: Option<&'a [Bounds]>,
    pub clusters: &'a [Vec<u32>],
    pub known: Known<'a>,
}

/// What the analysis of a function gives.
#[derive(Drop)]
pub struct Findings {
    pub artifact: Artifact,
    /// Each check of the body once, in the order of the text.
    pub visits: Vec<(SiteId, Colour)>,
}
