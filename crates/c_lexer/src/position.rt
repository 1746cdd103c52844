//! Where reading stands in a text.

use crate::token::Place;

/// How many bytes come before, and the line and column of the next byte, both counted from 1.
#[derive(Clone, Copy, Debug, PartialEq, Eq)]
pub struct Position {
    pub offset: usize,
    pub line: usize,
    pub column: usize,
}

impl Position {
    ghost use Rattle.std.specs.Prelude.{◌≡◌, ◌+◌, ◌^◌, ◌<◌, length};
    ghost use Rattle.c_lexer.specs.Positions.{start, step, after, place_of};

    /// Where a text begins.
    pub fn start() -> Position
        ensures { result ≡ start }
    {
        Position {
            offset: 0,
            line: 1,
            column: 1,
        }
    }

    /// The position after this byte.
    #[tactic(auto, unfolding(crate::specs::Positions::step))]
    pub fn after(self, byte: u8) -> Position
        requires offset { self.offset + 1 < 2 ^ 64 }
        requires line { self.line + 1 < 2 ^ 64 }
        requires column { self.column + 1 < 2 ^ 64 }
        ensures { result ≡ step self byte }
    {
        let offset = self.offset + 1;
        if byte == b'\n' {
            Position {
                offset,
                line: self.line + 1,
                column: 1,
            }
        } else {
            Position {
                offset,
                line: self.line,
                column: self.column + 1,
            }
        }
    }

    /// The position after so many bytes, none of which is a line feed.
    pub fn along(self, count: usize) -> Position
        requires offset { self.offset + count < 2 ^ 64 }
        requires column { self.column + count < 2 ^ 64 }
        ensures { result ≡ record self { offset = self.offset + count; column = self.column + count } }
    {
        Position {
            offset: self.offset + count,
            line: self.line,
            column: self.column + count,
        }
    }

    /// The position after these bytes.
    #[tactic(auto, unfolding(crate::specs::Positions::after))]
    pub fn across(self, bytes: &[u8]) -> Position
        requires offset { self.offset + length bytes.now < 2 ^ 64 }
        requires line { self.line + length bytes.now < 2 ^ 64 }
        requires column { self.column + length bytes.now + 1 < 2 ^ 64 }
        ensures { result ≡ after self bytes.now }
    {
        let mut position = self;
        for byte in bytes {
            position = position.after(*byte);
        }
        position
    }

    /// The line and the column.
    pub fn place(self) -> Place
        requires line { self.line < 2 ^ 32 }
        requires column { self.column < 2 ^ 32 }
        ensures { result ≡ place_of self }
    {
        Place {
            line: self.line as u32,
            column: self.column as u32,
        }
    }
}
