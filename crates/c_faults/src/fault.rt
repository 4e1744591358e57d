use sv_base::{FaultKind, Place};

/// A token of a file.
#[derive(Clone, Copy, Debug, PartialEq, Eq)]
pub struct Spot {
    /// Its presumed place (ISO/IEC 9899:1999, 6.10.4), which orders nothing.
    pub place: Place,
    /// Its offset in bytes, which orders the tokens of one file.
    pub start: u32,
}

/// Why a file is refused, and at which token.
#[derive(Clone, Copy, Debug, PartialEq, Eq)]
pub struct Fault {
    pub kind: FaultKind,
    pub at: Spot,
}

// The order of two faults at one token.
fn rank(kind: FaultKind) -> (u8, u16) {
    match kind {
        FaultKind::Lex => (0, 0),
        FaultKind::Syntax => (1, 0),
        FaultKind::Unsupported(code) => (2, code),
        FaultKind::Typing(code) => (3, code),
        FaultKind::Link(code) => (4, code),
        FaultKind::Limit(code) => (5, code),
    }
}

/// The fault of two of one file that is reported: that of the earlier token, and of one token what is not supported before
/// what is typed wrong before what passes a limit, and then the lesser code.
pub fn sooner(one: Fault, other: Fault) -> Fault {
    if one.at.start != other.at.start {
        return if one.at.start < other.at.start {
            one
        } else {
            other
        };
    }
    if rank(other.kind) < rank(one.kind) {
        other
    } else {
        one
    }
}
