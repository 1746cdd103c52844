//! Why a text stands for no term or predicate.

use c_lexer::{Place, Refusal};
use std::alloc::AllocError;
use thiserror::Error;

/// The first broken rule, and where it is broken.
#[derive(Clone, Copy, Debug, PartialEq, Eq, Error)]
pub enum TermFault {
    /// The first token that the reader can't use; `0:0` at the end of the text.
    #[error("{}:{}: no predicate goes on with this token", .0.line, .0.column)]
    Syntax(Place),
    /// A name that is no variable in scope and no function, or an unknown member.
    #[error("{}:{}: this name is not known", .0.line, .0.column)]
    Unknown(Place),
    /// A kind of term that the rule doesn't take (ACSL, typing of terms).
    #[error("{}:{}: the kinds do not fit", .0.line, .0.column)]
    Kind(Place),
    /// An interval that leaves the limit.
    #[error("{}:{}: this may be too wide", .0.line, .0.column)]
    TooWide(Place),
    /// A meta variable of another context.
    #[error("{}:{}: this has no meaning in this context", .0.line, .0.column)]
    BadMeta(Place),
    /// An `\at` that may not stand here, or not of this term.
    #[error("{}:{}: this has no value at that label", .0.line, .0.column)]
    BadAt(Place),
    /// More nodes than the limit.
    #[error("{}:{}: this is too long", .0.line, .0.column)]
    TooLong(Place),
    #[error("out of memory")]
    Memory,
}

impl TermFault {
    ghost use Rattle.std.specs.Prelude.{◌≡◌};
    ghost use Rattle.acsl_rules.specs.Checked.{refusal_of};

    /// The number of the fault, 141 to 147, and its place; `None` for want of memory.
    pub fn refusal(self) -> Option<Refusal>
        ensures { result ≡ refusal_of self }
    {
        let (code, place) = match self {
            TermFault::Syntax(place) => (141, place),
            TermFault::Unknown(place) => (142, place),
            TermFault::Kind(place) => (143, place),
            TermFault::TooWide(place) => (144, place),
            TermFault::BadMeta(place) => (145, place),
            TermFault::BadAt(place) => (146, place),
            TermFault::TooLong(place) => (147, place),
            TermFault::Memory => return None,
        };
        Some(Refusal { code, place })
    }
}

impl From<AllocError> for TermFault {
    ghost use Rattle.std.specs.Prelude.{◌≡◌};
    ghost use Rattle.acsl_rules.specs.declared.fault.TermFault.TheVariants.{Memory};

    ghost from_gives = { λ _ fault. fault ≡ Memory };

    fn from(_: AllocError) -> TermFault {
        TermFault::Memory
    }
}
