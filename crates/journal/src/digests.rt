/// The digests of a source: the one that a database of version 2 has to have, and the one of version 1, where it can
/// have one. Each is SHA-256.
#[derive(Clone, Copy, Debug, PartialEq, Eq)]
pub struct Digests {
    pub current: [u8; 32],
    pub old: Option<[u8; 32]>,
}

/// The version of a database.
#[derive(Clone, Copy, PartialEq, Eq)]
pub(crate) enum Version {
    First,
    Second,
}
