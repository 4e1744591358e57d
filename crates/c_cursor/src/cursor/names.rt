//! The names that declarations declare (ISO/IEC 9899:1999, 6.7.2.2, 6.7.5).
ghost use Rattle.std.specs.Prelude.{◌≡◌, ◌≢◌, IfErr, OnErr};
ghost use Rattle.c_grammar.specs.Terminals as w;
ghost use Rattle.c_cursor.specs.Parsers.{sees, take, Takes};

use super::Cursor;
use crate::error::ReadError;
use c_kinds::kinds::{is_name, name_in};
use c_tree::Lexeme;

impl<'a> Cursor<'a> {
    /// Whether the next token is a name that may be declared here: no typedef name where the specifiers have no type word.
    pub fn sees_declared_name(&self) -> bool
        ensures { result ≡ sees w.declared_name self.now }
    {
        match self.rest {
            [] => false,
            [token, ..] => self.is_declared_name(token),
        }
    }

    /// The same directly behind a `(` in a parameter's declarator: no typedef name.
    pub fn sees_grouped_name(&self) -> bool
        ensures { result ≡ sees w.grouped_name self.now }
    {
        self.sees_value_name()
    }

    /// Whether the next token is a name, which may be an enumeration constant.
    pub fn sees_enumerator_name(&self) -> bool
        ensures { result ≡ sees w.enumerator_name self.now }
    {
        self.sees_any_name()
    }

    /// The name that is declared.
    pub fn take_declared_name(&mut self) -> Result<&'a Lexeme, ReadError>
        ensures takes { Takes (take w.declared_name self.old) result self.new }
        ensures needs_no_memory { IfErr result (λ e. e ≢ ReadError.NoMemory) }
        ensures stays { OnErr result (self.new ≡ self.old) }
    {
        let fits = self.sees_declared_name();
        let token = self.take_if(fits)?;
        self.frames.hold(name_in(&token.kind));
        Ok(token)
    }

    /// The name that is declared, directly behind a `(` in a parameter's declarator.
    pub fn take_grouped_name(&mut self) -> Result<&'a Lexeme, ReadError>
        ensures takes { Takes (take w.grouped_name self.old) result self.new }
        ensures needs_no_memory { IfErr result (λ e. e ≢ ReadError.NoMemory) }
        ensures stays { OnErr result (self.new ≡ self.old) }
    {
        let fits = self.sees_grouped_name();
        let token = self.take_if(fits)?;
        self.frames.hold(name_in(&token.kind));
        Ok(token)
    }

    /// The name of an enumeration constant.
    pub fn take_enumerator_name(&mut self) -> Result<&'a Lexeme, ReadError>
        ensures takes { Takes (take w.enumerator_name self.old) result self.new }
        ensures needs_no_memory { IfErr result (λ e. e ≢ ReadError.NoMemory) }
        ensures stays { OnErr result (self.new ≡ self.old) }
    {
        let fits = self.sees_enumerator_name();
        let token = self.take_if(fits)?;
        self.frames.hold(name_in(&token.kind));
        Ok(token)
    }

    // Whether it is a name that may be declared here.
    fn is_declared_name(&self, token: &Lexeme) -> bool
        ensures { result ≡ w.declared_name.fits self.now.state token.now }
    {
        is_name(&token.kind)
            && (self.frames.first().has_type() || !self.scopes.names_type(name_in(&token.kind)))
    }
}
