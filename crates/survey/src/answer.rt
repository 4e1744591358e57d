/// What is answered on files that were loaded.
#[derive(Drop)]
pub enum Answer {
    /// The text of the report, and its status.
    Report(Vec<u8>, u8),
    /// The line of the fault for which a file is refused.
    Refused(Vec<u8>),
    NoMemory,
}
