ghost use Rattle.std.specs.Prelude.{◌≡◌};

use crate::ids::FileId;

/// A place in a file. Lines and columns count from 1, columns in bytes; line 0 with column 0 is the file as a whole.
#[derive(Clone, Copy, Debug, PartialEq, Eq)]
pub struct Place {
    pub file: FileId,
    pub line: u32,
    pub col: u32,
}

impl Place {
    /// The file as a whole.
    pub fn of_file(file: FileId) -> Place
        ensures { result ≡ record { file = file; line = 0; col = 0 } }
    {
        Place {
            file,
            line: 0,
            col: 0,
        }
    }
}
