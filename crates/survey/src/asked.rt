/// What a check is asked for.
#[derive(Drop)]
pub struct Asked {
    /// The names of the functions that the environment calls, separated by commas.
    pub entry: String,
    /// The most rising rounds.
    pub rounds: u32,
    /// The names of the files, in the order in which they are read.
    pub files: Vec<String>,
}
