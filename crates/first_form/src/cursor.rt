ghost use Rattle.std.specs.Prelude.{◌≡◌, ◌-◌, length, take, drop, All};
ghost use Rattle.first_form.specs.Pieces.{IsInFile, pieces};
ghost use Rattle.first_form.specs.Form.{begins_word, line_at, col_at};
ghost use Rattle.first_form.specs.computed.Reading.{Gives, word_at, name_at, number_at, first_is, second_is};

use crate::bytes::is_nondigit;
use crate::numbers::number_of;
use crate::refusal::Refusal;
use crate::reserved::is_reserved;
use crate::token::Token;
use sqlite_items::Items;
use std::alloc::Global;
use std::marker::Model;

/// The tokens that are left to read.
#[derive(Drop)]
pub(crate) struct Cursor<'a> {
    bytes: &'a [u8],
    tokens: &'a [Token],
}

impl<'a> Model for Cursor<'a> {
    ghost use Rattle.std.specs.Prelude.{List, All};
    ghost use Rattle.first_form.specs.Pieces.{Piece, pieces, IsInFile};

    ghost Value = { List Piece };

    ghost view = { λ c. pieces c.bytes.now c.tokens.now };

    ghost invariant = { λ c. All (IsInFile c.bytes.now) c.tokens.now };
}

fn text_of<'a>(bytes: &'a [u8], token: &Token) -> &'a [u8]
    requires { IsInFile bytes.now token.now }
    ensures { result.now ≡ take (token.now.end - token.now.start) (drop token.now.start bytes.now) }
{
    &bytes[token.start as usize..token.end as usize]
}

fn begins_word(text: &[u8]) -> bool
    ensures { result ≡ begins_word text.now }
{
    match text {
        [first, ..] => is_nondigit(*first),
        [] => false,
    }
}

impl<'a> Cursor<'a> {
    pub(crate) fn new(bytes: &'a [u8], tokens: &'a [Token]) -> Cursor<'a>
        requires { All (IsInFile bytes.now) tokens.now }
        ensures { result ≡ pieces bytes.now tokens.now }
    {
        Cursor { bytes, tokens }
    }

    pub(crate) fn len(&self) -> usize
        ensures { result ≡ length self.now }
    {
        self.tokens.len()
    }

    /// Whether the first token is this word or mark.
    pub(crate) fn first_is(&self, word: &[u8]) -> bool
        ensures { result ≡ first_is word.now self.now }
    {
        match self.tokens {
            [first, ..] => text_of(self.bytes, first) == word,
            [] => false,
        }
    }

    /// Whether the second token is this word or mark.
    pub(crate) fn second_is(&self, word: &[u8]) -> bool
        ensures { result ≡ second_is word.now self.now }
    {
        match self.tokens {
            [_, second, ..] => text_of(self.bytes, second) == word,
            _ => false,
        }
    }

    /// The line and column of the first token.
    pub(crate) fn place(&self) -> (u32, u32)
        ensures { result ≡ (line_at self.now, col_at self.now) }
    {
        match self.tokens {
            [first, ..] => (first.line, first.col),
            [] => (0, 0),
        }
    }

    /// Takes this word or mark.
    pub(crate) fn word(&mut self, word: &[u8]) -> Result<(), Refusal>
        ensures { Gives (λ _. self.new) result (word_at word.now self.old) }
    {
        let [first, rest @ ..] = self.tokens else {
            return Err(Refusal::NotOfForm);
        };
        if text_of(self.bytes, first) != word {
            return Err(Refusal::NotOfForm);
        }
        self.tokens = rest;
        Ok(())
    }

    /// Takes the name of an array.
    pub(crate) fn name(&mut self, alloc: Global) -> Result<Items<u8>, Refusal>
        ensures { Gives (λ name. (name, self.new)) result (name_at self.old) }
    {
        let [first, rest @ ..] = self.tokens else {
            return Err(Refusal::NotOfForm);
        };
        let text = text_of(self.bytes, first);
        if !begins_word(text) || is_reserved(text) {
            return Err(Refusal::NotOfForm);
        }
        let name = Items::from_slice(alloc, text)?;
        self.tokens = rest;
        Ok(name)
    }

    /// Takes a number.
    pub(crate) fn number(&mut self) -> Result<u32, Refusal>
        ensures { Gives (λ n. (n, self.new)) result (number_at self.old) }
    {
        let [first, rest @ ..] = self.tokens else {
            return Err(Refusal::NotOfForm);
        };
        let Some(number) = number_of(text_of(self.bytes, first)) else {
            return Err(Refusal::NotOfForm);
        };
        self.tokens = rest;
        Ok(number)
    }
}
