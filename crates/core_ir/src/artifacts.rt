use sv_base::{Colour, SiteId};

/// A demand on points-to sets. `rule` says which, from 1 to 8; `third` is 0 where the rule has no third number. Constraints are
/// ordered by these four numbers, the rule first.
#[derive(Clone, Copy, Debug, PartialEq, Eq, PartialOrd, Ord)]
pub struct Constraint {
    pub rule: u8,
    pub target: u32,
    pub source: u32,
    pub third: u32,
}

/// By node, the region classes and functions to which it may point, ascending. Function f has the number 2147483648 + f.
#[derive(Drop)]
pub struct Solution {
    pub sets: Vec<Vec<u32>>,
}

/// A matrix of bounds of differences as it is stored, over the variables 1 to `size` and the constant 0 as variable 0. `entries`
/// has the bound of v_j - v_i for each i and each j other than i, i first, from 0.
#[derive(Drop)]
pub struct Bounds {
    pub size: u8,
    pub entries: Vec<Option<i128>>,
}

/// What a function contributes to the context of a callee: a matrix for each cluster of the callee that has an entry register.
#[derive(Drop)]
pub struct CallPart {
    pub callee: u32,
    pub entry: Vec<Bounds>,
}

/// What a function writes to a leaf class: numbers from `low` to `high`.
#[derive(Clone, Copy, Debug, PartialEq, Eq)]
pub struct WritePart {
    pub class: u32,
    pub low: i128,
    pub high: i128,
}

/// What one round says of one function. A context or result that is not there holds of no call.
#[derive(Drop)]
pub struct Artifact {
    /// Whether it differs from the round before.
    pub changed: bool,
    pub context: Option<Vec<Bounds>>,
    pub result: Option<Vec<Bounds>>,
    /// By callee, ascending.
    pub calls: Vec<CallPart>,
    /// By leaf class, ascending.
    pub writes: Vec<WritePart>,
}

/// What is stored, of one of five kinds.
#[derive(Drop)]
pub enum Stored {
    Constraints(Vec<Constraint>),
    Solved(Solution),
    Clusters(Vec<Vec<u32>>),
    Summary(Artifact),
    Colours(Vec<(SiteId, Colour)>),
}
