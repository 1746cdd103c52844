//! Why a text stands for no core.

use c_lexer::{LexFault, Refusal};
use c_parser::ParseFault;
use thiserror::Error;
use typing_rules::fault::TypeFault;

/// Why a text stands for no core: the first refusal of its tokens, else that of its tree, else its first broken rule.
#[derive(Clone, Copy, Debug, PartialEq, Eq, Error)]
pub enum TextFault {
    #[error("{0}")]
    Lex(LexFault),
    #[error("{0}")]
    Syntax(ParseFault),
    #[error("{0}")]
    Type(TypeFault),
}

impl TextFault {
    ghost use Rattle.std.specs.Prelude.{◌≡◌};
    ghost use Rattle.c_texts.specs.Texts.{refusal_of};

    /// The number of the refusal and its place; `None` for want of memory.
    pub fn refusal(self) -> Option<Refusal>
        ensures { result ≡ refusal_of self }
    {
        match self {
            TextFault::Lex(fault) => fault.refusal(),
            TextFault::Syntax(fault) => fault.refusal(),
            TextFault::Type(fault) => fault.refusal(),
        }
    }
}
