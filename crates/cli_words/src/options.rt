/// What the command line asks for. Where the command lacks an option, its field has the option's default.
#[derive(Debug, Drop)]
pub struct Settings {
    pub command: Command,
    /// Names of functions, separated by commas.
    pub entry: String,
    pub rounds: u32,
    pub workers: u32,
    /// The path of the database, empty where none was given.
    pub path: String,
    pub files: Vec<String>,
    /// The two numbers of a trial, 0 for the other commands.
    pub number: u32,
    pub functions: u32,
    /// The bound on the steps of a run.
    pub bound: u32,
    /// Positions among the entry names, from 0.
    pub calls: Vec<u32>,
    pub word_path: Option<String>,
    pub book: Option<String>,
}

/// What surveyor is asked to do.
#[derive(Clone, Copy, Debug, PartialEq, Eq)]
pub enum Command {
    Check,
    Alone,
    Trial,
    Run,
    Audit,
}
