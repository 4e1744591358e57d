use c_syntax::words;
use c_values::IntType;

/// The type words of a list of specifiers (ISO/IEC 9899:1999, 6.7.2).
#[derive(Clone, Copy, Debug, PartialEq, Eq)]
pub struct TypeWords {
    main: Main,
    /// Whether `int` is among them.
    int: bool,
    sign: Sign,
}

#[derive(Clone, Copy, Debug, PartialEq, Eq)]
enum Main {
    Absent,
    Void,
    Bool,
    Char,
    Short,
    Long,
    LongLong,
}

#[derive(Clone, Copy, Debug, PartialEq, Eq)]
enum Sign {
    Absent,
    Signed,
    Unsigned,
}

/// The type that type words name.
#[derive(Clone, Copy, Debug, PartialEq, Eq)]
pub enum Base {
    Void,
    Int(IntType),
}

impl TypeWords {
    /// No word.
    pub fn new() -> TypeWords {
        TypeWords {
            main: Main::Absent,
            int: false,
            sign: Sign::Absent,
        }
    }

    pub fn is_empty(&self) -> bool {
        self.main == Main::Absent && !self.int && self.sign == Sign::Absent
    }

    /// These words and one more. None where no type has them, in whatever order.
    pub fn with(&self, word: u8) -> Option<TypeWords> {
        match word {
            words::VOID => self.alone(Main::Void),
            words::BOOL => self.alone(Main::Bool),
            words::CHAR => self.with_char(),
            words::SHORT => self.with_short(),
            words::LONG => self.with_long(),
            words::INT => self.with_int(),
            words::SIGNED => self.with_sign(Sign::Signed),
            words::UNSIGNED => self.with_sign(Sign::Unsigned),
            _ => None,
        }
    }

    /// The type of the words, None where there are none.
    pub fn base(&self) -> Option<Base> {
        let unsigned = self.sign == Sign::Unsigned;
        match self.main {
            Main::Void => Some(Base::Void),
            Main::Bool => Some(Base::Int(IntType::Bool)),
            Main::Char => Some(Base::Int(char_type(self.sign))),
            Main::Short if unsigned => Some(Base::Int(IntType::UShort)),
            Main::Short => Some(Base::Int(IntType::Short)),
            Main::Long if unsigned => Some(Base::Int(IntType::ULong)),
            Main::Long => Some(Base::Int(IntType::Long)),
            Main::LongLong if unsigned => Some(Base::Int(IntType::ULongLong)),
            Main::LongLong => Some(Base::Int(IntType::LongLong)),
            Main::Absent if unsigned => Some(Base::Int(IntType::UInt)),
            Main::Absent if self.is_empty() => None,
            Main::Absent => Some(Base::Int(IntType::Int)),
        }
    }

    // A word that stands by itself.
    fn alone(&self, main: Main) -> Option<TypeWords> {
        if self.is_empty() {
            Some(self.as_main(main))
        } else {
            None
        }
    }

    fn with_char(&self) -> Option<TypeWords> {
        if self.main == Main::Absent && !self.int {
            Some(self.as_main(Main::Char))
        } else {
            None
        }
    }

    fn with_short(&self) -> Option<TypeWords> {
        if self.main == Main::Absent {
            Some(self.as_main(Main::Short))
        } else {
            None
        }
    }

    fn with_long(&self) -> Option<TypeWords> {
        match self.main {
            Main::Absent => Some(self.as_main(Main::Long)),
            Main::Long => Some(self.as_main(Main::LongLong)),
            _ => None,
        }
    }

    fn with_int(&self) -> Option<TypeWords> {
        let fits = match self.main {
            Main::Absent | Main::Short | Main::Long | Main::LongLong => !self.int,
            Main::Void | Main::Bool | Main::Char => false,
        };
        if !fits {
            return None;
        }
        Some(TypeWords {
            main: self.main,
            int: true,
            sign: self.sign,
        })
    }

    fn with_sign(&self, sign: Sign) -> Option<TypeWords> {
        if self.sign != Sign::Absent || self.main == Main::Void || self.main == Main::Bool {
            return None;
        }
        Some(TypeWords {
            main: self.main,
            int: self.int,
            sign,
        })
    }

    fn as_main(&self, main: Main) -> TypeWords {
        TypeWords {
            main,
            int: self.int,
            sign: self.sign,
        }
    }
}

fn char_type(sign: Sign) -> IntType {
    match sign {
        Sign::Absent => IntType::Char,
        Sign::Signed => IntType::SChar,
        Sign::Unsigned => IntType::UChar,
    }
}
