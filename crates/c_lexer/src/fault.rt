//! Why a text has no tokens.

use crate::token::{Place, Refusal};
use std::alloc::AllocFailed;
use thiserror::Error;

/// What is wrong where no token can follow.
#[derive(Clone, Copy, Debug, PartialEq, Eq)]
pub(crate) enum Flaw {
    BadByte,
    OpenComment,
    BadNumber,
    NumberTooWide,
    HashLine,
    BadCharacter,
}

impl Flaw {
    ghost use Rattle.std.specs.Prelude.{◌≡◌};
    ghost use Rattle.c_lexer.specs.Lexing.{fault_at};

    pub(crate) fn at(self, place: Place) -> LexFault
        ensures { result ≡ fault_at self place }
    {
        match self {
            Flaw::BadByte => LexFault::BadByte(place),
            Flaw::OpenComment => LexFault::OpenComment(place),
            Flaw::BadNumber => LexFault::BadNumber(place),
            Flaw::NumberTooWide => LexFault::NumberTooWide(place),
            Flaw::HashLine => LexFault::HashLine(place),
            Flaw::BadCharacter => LexFault::BadCharacter(place),
        }
    }
}

/// Why a text has no tokens, with the place where the bad token or comment begins.
#[derive(Clone, Copy, Debug, PartialEq, Eq, Error)]
pub enum LexFault {
    /// A byte that begins no token.
    #[error("{}:{}: no token begins here", .0.line, .0.column)]
    BadByte(Place),
    /// A comment without `*/`.
    #[error("{}:{}: the comment has no end", .0.line, .0.column)]
    OpenComment(Place),
    /// A number that is no integer constant (C11 6.4.4.1).
    #[error("{}:{}: this is no integer constant", .0.line, .0.column)]
    BadNumber(Place),
    /// An integer constant that no type holds.
    #[error("{}:{}: no type holds this constant", .0.line, .0.column)]
    NumberTooWide(Place),
    /// A line that begins with `#` and is no line marker.
    #[error("{}:{}: this is no line marker", .0.line, .0.column)]
    HashLine(Place),
    /// A `'` that begins no character constant.
    #[error("{}:{}: this is no character constant", .0.line, .0.column)]
    BadCharacter(Place),
    #[error("out of memory")]
    Memory,
}

impl LexFault {
    ghost use Rattle.std.specs.Prelude.{◌≡◌};
    ghost use Rattle.c_lexer.specs.Lexing.{refusal_of};

    /// The number of the fault, 101 to 106, and its place; `None` for want of memory.
    pub fn refusal(self) -> Option<Refusal>
        ensures { result ≡ refusal_of self }
    {
        let (code, place) = match self {
            LexFault::BadByte(place) => (101, place),
            LexFault::OpenComment(place) => (102, place),
            LexFault::BadNumber(place) => (103, place),
            LexFault::NumberTooWide(place) => (104, place),
            LexFault::HashLine(place) => (105, place),
            LexFault::BadCharacter(place) => (106, place),
            LexFault::Memory => return None,
        };
        Some(Refusal { code, place })
    }
}

impl<T: Drop> From<AllocFailed<T>> for LexFault {
    ghost use Rattle.std.specs.Prelude.{◌≡◌};
    ghost use Rattle.c_lexer.specs.declared.fault.LexFault.TheVariants.{Memory};

    ghost from_gives = { λ _ fault. fault ≡ Memory };

    fn from(_failed: AllocFailed<T>) -> LexFault {
        LexFault::Memory
    }
}
