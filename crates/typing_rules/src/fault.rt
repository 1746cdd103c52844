//! Why a tree stands for no program.

use c_lexer::{Place, Refusal};
use std::alloc::AllocError;
use thiserror::Error;

/// The first broken rule of the language, and where it is broken.
#[derive(Clone, Copy, Debug, PartialEq, Eq, Error)]
pub enum TypeFault {
    /// An unknown name, tag or member (C11 6.5.1, 2; 6.5.2.3, 1; 6.7.2.3).
    #[error("{}:{}: this name is not known", .0.line, .0.column)]
    Unknown(Place),
    /// A name, tag or member that its scope has already, or another declaration of a function (C11 6.7, 3 and 4).
    #[error("{}:{}: this name is declared already", .0.line, .0.column)]
    Redeclared(Place),
    /// A type that the rule doesn't take.
    #[error("{}:{}: the types do not fit", .0.line, .0.column)]
    Mismatch(Place),
    /// No lvalue that can be assigned to, or that has an address (C11 6.3.2.1, 1; 6.5.3.2, 1).
    #[error("{}:{}: no lvalue stands here", .0.line, .0.column)]
    NotPlace(Place),
    /// Another number of arguments than the function has parameters (C11 6.5.2.2, 2).
    #[error("{}:{}: the number of arguments is wrong", .0.line, .0.column)]
    ArgumentCount(Place),
    /// A call of a function that the text gives no body.
    #[error("{}:{}: this function has no body", .0.line, .0.column)]
    NoBody(Place),
    /// No body of `main` (C11 5.1.2.2.1).
    #[error("{}:{}: `main` has no body", .0.line, .0.column)]
    NoMain(Place),
    /// A call of `main`.
    #[error("{}:{}: `main` is called", .0.line, .0.column)]
    MainCalled(Place),
    /// A struct as a value.
    #[error("{}:{}: a struct is used as a value", .0.line, .0.column)]
    StructValue(Place),
    /// A name in a source that begins with two underscores.
    #[error("{}:{}: this name is reserved", .0.line, .0.column)]
    Reserved(Place),
    /// A limit is passed.
    #[error("{}:{}: this is too large", .0.line, .0.column)]
    TooLarge(Place),
    /// An initialiser or a size of an array that isn't of the form that it has to have (C11 6.6, 6.7.6.2, 6.7.9).
    #[error("{}:{}: this initialiser or size is of another form", .0.line, .0.column)]
    BadInitialiser(Place),
    /// `break` or `continue` outside a loop (C11 6.8.6.2, 6.8.6.3).
    #[error("{}:{}: this stands in no loop", .0.line, .0.column)]
    StrayJump(Place),
    #[error("out of memory")]
    Memory,
}

impl TypeFault {
    ghost use Rattle.std.specs.Prelude.{◌≡◌};
    ghost use Rattle.typing_rules.specs.Checked.{refusal_of};

    /// The number of the fault, 121 to 133, and its place; `None` for want of memory.
    pub fn refusal(self) -> Option<Refusal>
        ensures { result ≡ refusal_of self }
    {
        let (code, place) = match self {
            TypeFault::Unknown(place) => (121, place),
            TypeFault::Redeclared(place) => (122, place),
            TypeFault::Mismatch(place) => (123, place),
            TypeFault::NotPlace(place) => (124, place),
            TypeFault::ArgumentCount(place) => (125, place),
            TypeFault::NoBody(place) => (126, place),
            TypeFault::NoMain(place) => (127, place),
            TypeFault::MainCalled(place) => (128, place),
            TypeFault::StructValue(place) => (129, place),
            TypeFault::Reserved(place) => (130, place),
            TypeFault::TooLarge(place) => (131, place),
            TypeFault::BadInitialiser(place) => (132, place),
            TypeFault::StrayJump(place) => (133, place),
            TypeFault::Memory => return None,
        };
        Some(Refusal { code, place })
    }
}

impl From<AllocError> for TypeFault {
    ghost use Rattle.std.specs.Prelude.{◌≡◌};
    ghost use Rattle.typing_rules.specs.declared.fault.TypeFault.TheVariants.{Memory};

    ghost from_gives = { λ _ fault. fault ≡ Memory };

    fn from(_: AllocError) -> TypeFault {
        TypeFault::Memory
    }
}
