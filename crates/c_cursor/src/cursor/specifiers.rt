//! What the specifiers of declarations are made of (ISO/IEC 9899:1999, 6.7.1 to 6.7.4, 6.7.7).
ghost use Rattle.std.specs.Prelude.{◌≡◌, ◌≢◌, IfErr, OnErr};
ghost use Rattle.c_grammar.specs.Terminals as w;
ghost use Rattle.c_cursor.specs.Parsers.{sees, take, Takes};

use super::Cursor;
use crate::error::ReadError;
use c_kinds::keywords::{is_plain_specifier, is_qualifier, is_record_word, is_type_word};
use c_kinds::kinds::{is_name, name_in};
use c_syntax::words;
use c_tree::Lexeme;

impl<'a> Cursor<'a> {
    /// Whether the next token is `typedef`.
    pub fn sees_typedef(&self) -> bool
        ensures { result ≡ sees w.typedef self.now }
    {
        self.sees_word(words::TYPEDEF)
    }

    /// Whether the next token is another storage class, a qualifier or `inline`.
    pub fn sees_plain_specifier(&self) -> bool
        ensures { result ≡ sees w.plain_specifier self.now }
    {
        match self.rest {
            [] => false,
            [token, ..] => is_plain_specifier(&token.kind),
        }
    }

    /// Whether the next token is a word of a basic type.
    pub fn sees_type_word(&self) -> bool
        ensures { result ≡ sees w.type_word self.now }
    {
        match self.rest {
            [] => false,
            [token, ..] => is_type_word(&token.kind),
        }
    }

    /// Whether the next token is `struct` or `union`.
    pub fn sees_record_word(&self) -> bool
        ensures { result ≡ sees w.record_word self.now }
    {
        match self.rest {
            [] => false,
            [token, ..] => is_record_word(&token.kind),
        }
    }

    /// Whether the next token is `enum`.
    pub fn sees_enumeration_word(&self) -> bool
        ensures { result ≡ sees w.enumeration_word self.now }
    {
        self.sees_word(words::ENUM)
    }

    /// Whether the next token is a typedef name that is a type word, as it is where the specifiers have none before it.
    pub fn sees_typedef_name(&self) -> bool
        ensures { result ≡ sees w.typedef_name self.now }
    {
        match self.rest {
            [] => false,
            [token, ..] => self.is_typedef_name(token),
        }
    }

    /// Whether the next token is a qualifier.
    pub fn sees_qualifier(&self) -> bool
        ensures { result ≡ sees w.qualifier self.now }
    {
        match self.rest {
            [] => false,
            [token, ..] => is_qualifier(&token.kind),
        }
    }

    /// `typedef`.
    pub fn take_typedef(&mut self) -> Result<&'a Lexeme, ReadError>
        ensures takes { Takes (take w.typedef self.old) result self.new }
        ensures needs_no_memory { IfErr result (λ e. e ≢ ReadError.NoMemory) }
        ensures stays { OnErr result (self.new ≡ self.old) }
    {
        let fits = self.sees_typedef();
        let token = self.take_if(fits)?;
        self.frames.see_typedef();
        Ok(token)
    }

    /// Another storage class, a qualifier or `inline`.
    pub fn take_plain_specifier(&mut self) -> Result<&'a Lexeme, ReadError>
        ensures takes { Takes (take w.plain_specifier self.old) result self.new }
        ensures needs_no_memory { IfErr result (λ e. e ≢ ReadError.NoMemory) }
        ensures stays { OnErr result (self.new ≡ self.old) }
    {
        let fits = self.sees_plain_specifier();
        self.take_if(fits)
    }

    /// A word of a basic type.
    pub fn take_type_word(&mut self) -> Result<&'a Lexeme, ReadError>
        ensures takes { Takes (take w.type_word self.old) result self.new }
        ensures needs_no_memory { IfErr result (λ e. e ≢ ReadError.NoMemory) }
        ensures stays { OnErr result (self.new ≡ self.old) }
    {
        let fits = self.sees_type_word();
        let token = self.take_if(fits)?;
        self.frames.see_type();
        Ok(token)
    }

    /// `struct` or `union`.
    pub fn take_record_word(&mut self) -> Result<&'a Lexeme, ReadError>
        ensures takes { Takes (take w.record_word self.old) result self.new }
        ensures needs_no_memory { IfErr result (λ e. e ≢ ReadError.NoMemory) }
        ensures stays { OnErr result (self.new ≡ self.old) }
    {
        let fits = self.sees_record_word();
        let token = self.take_if(fits)?;
        self.frames.see_type();
        Ok(token)
    }

    /// `enum`.
    pub fn take_enumeration_word(&mut self) -> Result<&'a Lexeme, ReadError>
        ensures takes { Takes (take w.enumeration_word self.old) result self.new }
        ensures needs_no_memory { IfErr result (λ e. e ≢ ReadError.NoMemory) }
        ensures stays { OnErr result (self.new ≡ self.old) }
    {
        let fits = self.sees_enumeration_word();
        let token = self.take_if(fits)?;
        self.frames.see_type();
        Ok(token)
    }

    /// A typedef name as a type word.
    pub fn take_typedef_name(&mut self) -> Result<&'a Lexeme, ReadError>
        ensures takes { Takes (take w.typedef_name self.old) result self.new }
        ensures needs_no_memory { IfErr result (λ e. e ≢ ReadError.NoMemory) }
        ensures stays { OnErr result (self.new ≡ self.old) }
    {
        let fits = self.sees_typedef_name();
        let token = self.take_if(fits)?;
        self.frames.see_type();
        Ok(token)
    }

    /// A qualifier.
    pub fn take_qualifier(&mut self) -> Result<&'a Lexeme, ReadError>
        ensures takes { Takes (take w.qualifier self.old) result self.new }
        ensures needs_no_memory { IfErr result (λ e. e ≢ ReadError.NoMemory) }
        ensures stays { OnErr result (self.new ≡ self.old) }
    {
        let fits = self.sees_qualifier();
        self.take_if(fits)
    }

    // Whether it is a typedef name as a type word.
    fn is_typedef_name(&self, token: &Lexeme) -> bool
        ensures { result ≡ w.typedef_name.fits self.now.state token.now }
    {
        is_name(&token.kind)
            && self.scopes.names_type(name_in(&token.kind))
            && !self.frames.first().has_type()
    }
}
