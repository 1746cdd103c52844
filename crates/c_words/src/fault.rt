//! Why a text has no tree.

use c_lexer::{Place, Refusal};
use std::alloc::AllocError;
use thiserror::Error;

#[derive(Clone, Copy, Debug, PartialEq, Eq, Error)]
pub enum ParseFault {
    /// The first token that the reader can't use; `0:0` at the end of the text.
    #[error("{}:{}: no program goes on with this token", .0.line, .0.column)]
    Syntax(Place),
    #[error("out of memory")]
    Memory,
}

impl ParseFault {
    ghost use Rattle.std.specs.Prelude.{◌≡◌};
    ghost use Rattle.c_words.specs.Parsing.{refusal_of};

    /// The number of the fault, 111, and its place; `None` for want of memory.
    pub fn refusal(self) -> Option<Refusal>
        ensures { result ≡ refusal_of self }
    {
        match self {
            ParseFault::Syntax(place) => Some(Refusal { code: 111, place }),
            ParseFault::Memory => None,
        }
    }
}

impl From<AllocError> for ParseFault {
    ghost use Rattle.std.specs.Prelude.{◌≡◌};
    ghost use Rattle.c_words.specs.declared.fault.ParseFault.TheVariants.{Memory};

    ghost from_gives = { λ _ fault. fault ≡ Memory };

    fn from(_: AllocError) -> ParseFault {
        ParseFault::Memory
    }
}
