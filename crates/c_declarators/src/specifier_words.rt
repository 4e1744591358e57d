use c_faults::{Spot, Stop, refuse};
use c_names::{Base, TypeWords};
use c_syntax::words;
use c_typed::{TypeId, Types};
use sv_base::faults;

/// A storage word (ISO/IEC 9899:1999, 6.7.1). `auto` and `register` say nothing here.
#[derive(Clone, Copy, Debug, PartialEq, Eq)]
pub enum Storage {
    Typedef,
    Extern,
    Static,
}

/// What a list of specifiers says (6.7).
#[derive(Clone, Copy, Debug, PartialEq, Eq)]
pub struct Specifiers {
    pub base: TypeId,
    /// The storage word, and where it stands.
    pub storage: Option<(Storage, Spot)>,
    /// Where the first `inline` stands.
    pub inline: Option<Spot>,
}

impl Specifiers {
    pub fn has(&self, wanted: Storage) -> bool {
        match self.storage {
            Some((storage, _)) => storage == wanted,
            None => false,
        }
    }
}

/// The words of a list of specifiers that were read.
#[derive(Clone, Copy)]
pub struct SpecifierWords {
    takes_storage: bool,
    types: TypeWords,
    /// The type that a structure, union, enumeration or typedef name gave.
    of: Option<TypeId>,
    storage: Option<(Storage, Spot)>,
    inline: Option<Spot>,
    volatile: bool,
}

impl SpecifierWords {
    /// No word. Storage words and `inline` do not stand in members, parameters and type names.
    pub fn new(takes_storage: bool) -> SpecifierWords {
        SpecifierWords {
            takes_storage,
            types: TypeWords::new(),
            of: None,
            storage: None,
            inline: None,
            volatile: false,
        }
    }

    /// One more keyword.
    pub fn take(&mut self, word: u8, at: Spot) -> Result<(), Stop> {
        match word {
            words::TYPEDEF => self.take_storage(Storage::Typedef, at),
            words::EXTERN => self.take_storage(Storage::Extern, at),
            words::STATIC => self.take_storage(Storage::Static, at),
            words::INLINE => self.take_inline(at),
            words::VOLATILE => {
                self.volatile = true;
                Ok(())
            }
            words::AUTO | words::REGISTER | words::CONST | words::RESTRICT => Ok(()),
            _ => self.take_type_word(word, at),
        }
    }

    fn take_storage(&mut self, storage: Storage, at: Spot) -> Result<(), Stop> {
        if self.storage.is_some() || !self.takes_storage {
            return refuse(faults::SPECIFIERS, at);
        }
        self.storage = Some((storage, at));
        Ok(())
    }

    fn take_inline(&mut self, at: Spot) -> Result<(), Stop> {
        if !self.takes_storage {
            return refuse(faults::SPECIFIERS, at);
        }
        if self.inline.is_none() {
            self.inline = Some(at);
        }
        Ok(())
    }

    fn take_type_word(&mut self, word: u8, at: Spot) -> Result<(), Stop> {
        match self.types.with(word) {
            Some(types) if self.of.is_none() => {
                self.types = types;
                Ok(())
            }
            _ => refuse(faults::SPECIFIERS, at),
        }
    }

    /// A type that is no keyword may come.
    pub fn expect_type(&self, at: Spot) -> Result<(), Stop> {
        if self.of.is_some() || !self.types.is_empty() {
            return refuse(faults::SPECIFIERS, at);
        }
        Ok(())
    }

    /// A type that is no keyword came.
    pub fn take_type(&mut self, of: TypeId) {
        self.of = Some(of);
    }

    /// What the words say. A list without a type stands at its first token.
    pub fn finish(&self, types: &mut Types, head: Spot) -> Result<Specifiers, Stop> {
        let of = match (self.of, self.types.base()) {
            (Some(of), _) => of,
            (None, Some(Base::Void)) => Types::void(),
            (None, Some(Base::Int(kind))) => Types::int(kind),
            (None, None) => return refuse(faults::SPECIFIERS, head),
        };
        let base = if self.volatile {
            types.qualified(of)?
        } else {
            of
        };
        Ok(Specifiers {
            base,
            storage: self.storage,
            inline: self.inline,
        })
    }
}
