/// What is printed of a report.
#[derive(Clone, Copy)]
pub enum View {
    Lines,
    Sarif,
    Html,
    Diff,
}

/// What the command line asks for.
#[derive(Drop)]
pub struct Wanted {
    pub view: View,
    /// The path of the report; of two, that of the old one.
    pub report: String,
    /// The path of the new report; empty where there is one report.
    pub new_report: String,
    /// The names of the sources; none for those that the report names.
    pub files: Vec<String>,
    /// The path of the notes; empty for none.
    pub notes: String,
    /// The folder in which the sources stand; empty for the current one.
    pub folder: String,
    /// The folder in which the sources of the old report stand.
    pub old_folder: String,
}
