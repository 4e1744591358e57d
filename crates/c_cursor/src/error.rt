use std::alloc::AllocError;

/// Why a parser reads nothing more.
#[derive(Clone, Copy, Debug, PartialEq, Eq)]
pub enum ReadError {
    /// What is being read does not go on with the next token, or none is left: so many are left, the next among them.
    Wrong(usize),
    /// Nothing more is read: a limit was passed, or a parser that is told how deep it may nest would nest deeper.
    TooDeep,
    /// A loop ran out of turns. A parser that is exact never answers it (`specs/Exact.antt`), nor does a call of a cursor.
    Spent,
    /// No memory is left, or none could hold a count.
    NoMemory,
}

impl From<AllocError> for ReadError {
    ghost use Rattle.std.specs.Prelude.{◌≡◌};
    ghost use Rattle.c_cursor.specs.declared.error.ReadError.TheVariants as errors;

    ghost from_gives = { λ _ e. e ≡ errors.NoMemory };

    fn from(_error: AllocError) -> ReadError {
        ReadError::NoMemory
    }
}
