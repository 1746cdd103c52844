//! Steps on operands between two expressions.

ghost use Rattle.std.specs.Prelude.{◌≡◌, map};
ghost use Rattle.typing_expressions.specs.Parts.{argument_of};
ghost use Rattle.typing_laws.specs.SmallTypes.{IsSmallOperand};
ghost use Rattle.typing_rules.specs.Allocation.{operand_type};
ghost use Rattle.typing_rules.specs.Checked.{Gives};
ghost use Rattle.typing_scopes.specs.Known.{known as environment};

use c_lexer::Place;
use std::alloc::Global;
use step_meaning::{Declared, ExprPart};
use typing_rules::fault::TypeFault;
use typing_rules::operand::{Operand, TypePart, What};
use typing_scopes::known::Known;
use typing_steps::called::fitted_argument;
use typing_steps::rule::valued;

/// The operand in parentheses, of which the first is at this place.
pub fn parenthesised(first: Place, a: Operand) -> Operand
    ensures { result ≡ record a { first = first } }
{
    Operand {
        first,
        what: a.what,
    }
}

/// The type of an operand that isn't evaluated (C11 6.5.3.4, 2).
pub fn type_of(a: Operand) -> TypePart
    ensures { result ≡ operand_type a }
{
    match a.what {
        What::At(_, ctype) => ctype,
        What::Made(_, _, ctype) => ctype,
    }
}

/// The operand as an argument, brought to the type of the first of these parameters where there is one.
pub fn argument(
    alloc: Global,
    known: &Known,
    parameters: &[Declared],
    a: Operand,
) -> Result<ExprPart, TypeFault>
    requires { IsSmallOperand known.now.layouts a }
    ensures { Gives (argument_of (environment known.now) (map (λ d. d.ctype) parameters.now) a) result }
{
    let v = valued(alloc, known, a)?;
    fitted_argument(alloc, known, parameters, v)
}
