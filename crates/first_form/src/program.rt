use sqlite_items::Items;

/// An array of `int` with static duration.
#[derive(Debug, Drop)]
pub struct Array {
    pub name: Items<u8>,
    /// In elements.
    pub size: u32,
}

/// A store of a number at a constant subscript. Line and column are those of its `[`.
#[derive(Clone, Copy, Debug, PartialEq, Eq)]
pub struct Store {
    /// Which array of the program, from 0.
    pub array: usize,
    pub subscript: u32,
    pub value: u32,
    pub line: u32,
    pub col: u32,
}

/// A file of the form.
#[derive(Debug, Drop)]
pub struct Program {
    pub arrays: Items<Array>,
    pub stores: Items<Store>,
    /// What `main` returns.
    pub returned: u32,
}
