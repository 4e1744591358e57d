ghost use Rattle.std.specs.Prelude.{◌≡◌, ◌+◌, ◌≤◌, ◌<◌, length};
ghost use Rattle.c_lexer.specs.Spots.{IsWithin, at_start, place_of, past_byte, past, past_token, past_directive, token_at};

use c_syntax::{Token, TokenKind};
use sv_base::{FileId, Place};

/// Where the lexer stands, and what depends on what it read before.
#[derive(Clone, Copy, Debug, PartialEq, Eq)]
pub(crate) struct Spot {
    /// The presumed name and line (ISO/IEC 9899:1999, 6.10.4), and the number of the byte in its line, from 1.
    pub(crate) file: FileId,
    pub(crate) line: u32,
    pub(crate) col: u32,
    /// How many bytes stand before.
    pub(crate) at: u32,
    /// Nothing but white space stands before on the line.
    pub(crate) is_first: bool,
    /// The name `L` ends here.
    pub(crate) is_wide: bool,
    /// How many tokens may still come.
    pub(crate) room: u32,
}

impl Spot {
    /// The first byte of a file of this name, with room for so many tokens.
    pub(crate) fn at_start(file: FileId, room: u32) -> Spot
        ensures { result ≡ at_start file room }
    {
        Spot {
            file,
            line: 1,
            col: 1,
            at: 0,
            is_first: true,
            is_wide: false,
            room,
        }
    }

    pub(crate) fn place(self) -> Place
        ensures { result ≡ place_of self }
    {
        Place {
            file: self.file,
            line: self.line,
            col: self.col,
        }
    }

    /// Behind one byte that belongs to no token.
    pub(crate) fn past_byte(self, byte: u8) -> Spot
        requires { IsWithin self 1 }
        ensures { result ≡ past_byte self byte }
    {
        if byte == b'\n' {
            Spot {
                line: self.line + 1,
                col: 1,
                at: self.at + 1,
                is_first: true,
                is_wide: false,
                ..self
            }
        } else {
            Spot {
                col: self.col + 1,
                at: self.at + 1,
                is_wide: false,
                ..self
            }
        }
    }

    /// Behind a text that has no token.
    pub(crate) fn past(self, text: &[u8]) -> Spot
        requires { IsWithin self (length text.now) }
        ensures { result ≡ past self text.now }
    {
        let mut spot = self;
        for b in text {
            spot = spot.past_byte(*b);
        }
        spot
    }

    /// Behind a token.
    pub(crate) fn past_token(self, text: &[u8]) -> Spot
        requires within { IsWithin self (length text.now) }
        requires room { 0 < self.room }
        ensures { result ≡ past_token self text.now }
    {
        let len = text.len() as u32;
        Spot {
            col: self.col + len,
            at: self.at + len,
            is_first: false,
            is_wide: text == b"L".as_slice(),
            room: self.room - 1,
            ..self
        }
    }

    /// Behind a directive that sets the number of the next line.
    pub(crate) fn past_directive(self, file: FileId, number: u32, line: &[u8], rest: &[u8]) -> Spot
        requires { IsWithin self (length line.now + length rest.now) }
        ensures { result ≡ past_directive self file number line.now rest.now }
    {
        let len = line.len() as u32;
        if rest.is_empty() {
            Spot {
                file,
                line: number,
                col: self.col + len,
                at: self.at + len,
                is_first: true,
                is_wide: false,
                room: self.room,
            }
        } else {
            Spot {
                file,
                line: number,
                col: 1,
                at: self.at + len + 1,
                is_first: true,
                is_wide: false,
                room: self.room,
            }
        }
    }

    /// The token of so many bytes here.
    pub(crate) fn token(self, kind: TokenKind, len: usize) -> Token
        requires { IsWithin self len }
        ensures { result ≡ token_at self kind len }
    {
        Token {
            kind,
            place: self.place(),
            start: self.at,
            end: self.at + len as u32,
        }
    }
}
