/// A record of a journal: the body of a task of a round, and the offset of its gate in bytes.
#[derive(Debug, Drop, PartialEq, Eq)]
pub struct Kept {
    pub round: u32,
    pub task: u32,
    pub body: Vec<u8>,
    pub at: u64,
}
