use lease_table::Standing;

/// What became of a publication.
#[derive(Clone, Copy, Debug, PartialEq, Eq)]
pub enum Publish {
    /// The artifact is on the disk and on the shelf.
    Stored,
    /// The lease is not the caller's: the round of the tables, and where the task of the round named stands.
    Lost {
        round: u32,
        standing: Option<Standing>,
    },
    /// A call of the disk failed, which the disk has counted. The record may be there or not.
    Disk,
    /// The image would have that many bytes with the record, and may have 2,147,483,648.
    Full {
        size: u64,
    },
    NoMemory,
}
