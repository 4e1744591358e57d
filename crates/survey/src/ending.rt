ghost use Rattle.std.specs.Prelude.{◌≡◌};
ghost use Rattle.survey.specs.computed.Endings.{complaint_text, status_number};

/// How a call ends. The texts are those that are told.
#[derive(Drop)]
pub enum Ending {
    /// The report was put, with this status.
    Reported(u8),
    Usage,
    /// A source is refused, with the line of its fault.
    Refused(Vec<u8>),
    CannotRead(Vec<u8>),
    NotWritten,
    NoMemory,
}

/// The exit status of an ending.
pub fn status_number(ending: &Ending) -> u8
    ensures { result ≡ status_number ending.now }
{
    match ending {
        Ending::Reported(status) => *status,
        Ending::Usage => 2,
        Ending::Refused(_) => 3,
        Ending::CannotRead(_) => 4,
        Ending::NotWritten => 7,
        Ending::NoMemory => 8,
    }
}

/// What an ending tells.
pub fn complaint(ending: &Ending) -> &[u8]
    ensures { result.now ≡ complaint_text ending.now }
{
    match ending {
        Ending::Reported(_) => b"",
        Ending::Usage => b"usage: surveyor check|alone|trial\n",
        Ending::Refused(line) => line.as_slice(),
        Ending::CannotRead(text) => text.as_slice(),
        Ending::NotWritten => b"surveyor: cannot write the report\n",
        Ending::NoMemory => b"surveyor: no memory\n",
    }
}
