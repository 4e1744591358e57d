/// Where a declarator stands, which says what it may be.
#[derive(Clone, Copy, Debug, PartialEq, Eq)]
pub enum Mode {
    /// In a declaration or a member, where it has a name (ISO/IEC 9899:1999, 6.7.5).
    Concrete,
    /// In a parameter, with or without a name (6.7.5.3).
    Parameter,
    /// There behind a `(`.
    Grouped,
    /// In a type name, without a name (6.7.6).
    Abstract,
}

impl Mode {
    /// Whether a declarator may have a name here.
    pub fn may_have_name(self) -> bool {
        self != Mode::Abstract
    }

    /// Whether it may have none.
    pub fn may_lack_name(self) -> bool {
        self != Mode::Concrete
    }

    /// The mode behind a `*`.
    pub fn behind_pointer(self) -> Mode {
        match self {
            Mode::Grouped => Mode::Parameter,
            mode => mode,
        }
    }

    /// The mode in parentheses.
    pub fn in_parentheses(self) -> Mode {
        match self {
            Mode::Parameter => Mode::Grouped,
            mode => mode,
        }
    }
}
