ghost use Rattle.std.specs.Prelude.{◌≡◌};
ghost use Rattle.survey_check.specs.computed.Endings.{status_number, told_text};

use survey::{complaint, status_number};

/// How a call ends. The texts are those that are told.
#[derive(Drop)]
pub enum Ending {
    /// As a check without a database ends.
    Plain(survey::Ending),
    /// A call of the disk failed, or the disk could not be opened.
    DiskFailed,
    /// The database is refused, with the line that says why.
    Refused(Vec<u8>),
    /// The next record would make the database too long, with the line that says how long.
    Full(Vec<u8>),
}

/// The exit status of an ending.
pub fn status_of(ending: &Ending) -> u8
    ensures { result ≡ status_number ending.now }
{
    match ending {
        Ending::Plain(plain) => status_number(plain),
        Ending::DiskFailed => 5,
        Ending::Refused(_) => 6,
        Ending::Full(_) => 9,
    }
}

/// What an ending tells.
pub(crate) fn told(ending: &Ending) -> &[u8]
    ensures { result.now ≡ told_text ending.now }
{
    match ending {
        Ending::Plain(plain) => complaint(plain),
        Ending::DiskFailed => b"surveyor: disk failed\n",
        Ending::Refused(text) => text.as_slice(),
        Ending::Full(text) => text.as_slice(),
    }
}
