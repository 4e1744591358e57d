//! Tokens ahead, which are not read.
ghost use Rattle.std.specs.Prelude.{◌≡◌, Ok, Some, slice_get, MatchResult};

use super::Cursor;
use crate::error::ReadError;
use c_kinds::keywords::{is_plain_specifier, is_record_word, is_type_word, is_word};
use c_kinds::kinds::{is_mark, is_name, name_in};
use c_syntax::words;
use c_tree::Lexeme;

impl<'a> Cursor<'a> {
    /// The next token, of which there is one.
    pub fn look(&self) -> Result<&'a Lexeme, ReadError>
        ensures { MatchResult result (λ token. slice_get self.now.rest 0 ≡ Some token.now) (λ e. e ≡ ReadError.Wrong 0) }
    {
        match self.rest {
            [token, ..] => Ok(token),
            [] => Err(ReadError::Wrong(0)),
        }
    }

    /// How many tokens are left.
    pub fn left(&self) -> usize {
        self.rest.len()
    }

    /// Whether the next token begins specifiers.
    pub fn sees_specifiers(&self) -> bool {
        match self.rest {
            [token, ..] => self.begins_specifiers(token),
            [] => false,
        }
    }

    /// Whether the token behind the next one begins specifiers.
    pub fn sees_specifiers_behind(&self) -> bool {
        match self.rest {
            [_, token, ..] => self.begins_specifiers(token),
            _ => false,
        }
    }

    /// Whether the token behind the next one is the punctuator.
    pub fn sees_mark_behind(&self, mark: u8) -> bool {
        match self.rest {
            [_, token, ..] => is_mark(mark, &token.kind),
            _ => false,
        }
    }

    /// Whether the token behind the next one is a name.
    pub fn sees_any_name_behind(&self) -> bool {
        match self.rest {
            [_, token, ..] => is_name(&token.kind),
            _ => false,
        }
    }

    // Whether it begins specifiers: a keyword among them, or a typedef name.
    fn begins_specifiers(&self, token: &Lexeme) -> bool {
        let kind = &token.kind;
        is_word(words::TYPEDEF, kind)
            || is_plain_specifier(kind)
            || is_type_word(kind)
            || is_record_word(kind)
            || is_word(words::ENUM, kind)
            || is_name(kind) && self.scopes.names_type(name_in(kind))
    }
}
