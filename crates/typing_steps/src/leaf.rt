//! Names and constants (C11 6.5.1).

ghost use Rattle.std.specs.Prelude.{◌≡◌, Ok};
ghost use Rattle.typing_laws.specs.SmallTypes.{IsSmall};
ghost use Rattle.typing_rules.specs.Checked.{Gives};
ghost use Rattle.typing_rules.specs.Environment.{place_of, bytes_in};
ghost use Rattle.typing_rules.specs.Expressions as rules;
ghost use Rattle.typing_rules.specs.Operands as operands;
ghost use Rattle.typing_rules.specs.Syntax as syntax;
ghost use Rattle.typing_scopes.specs.Known.{known as environment};

use c_words::word::Leaf;
use std::alloc::Global;
use step_meaning::{CType, Place_, Variable};
use typing_operands::literal::{character as character_operand, numbered};
use typing_operands::part::{at_place, copied};
use typing_rules::fault::TypeFault;
use typing_rules::operand::Operand;
use typing_scopes::found::Found;
use typing_scopes::known::Known;

/// The lvalue of a variable.
fn variable_operand(
    alloc: Global,
    name: &Leaf,
    variable: Variable,
    ctype: &CType,
) -> Result<Operand, TypeFault>
    ensures { Gives (Ok (operands.at_place (place_of name.now) (Place_.Own variable) ctype.now)) result }
{
    let ctype = copied(alloc, ctype)?;
    at_place(alloc, name.token.place, Place_::Own(variable), ctype)
}

/// A name as an expression: the lvalue of a variable; a function is none.
#[tactic(auto, unfolding(typing_rules::specs::Expressions::operand))]
pub fn named(alloc: Global, known: &Known, name: &Leaf) -> Result<Operand, TypeFault>
    ensures { Gives (rules.operand (environment known.now) (syntax.Name name.now)) result }
{
    match known.entry(name)? {
        Found::Variable(variable, ctype) => variable_operand(alloc, name, variable, ctype),
        Found::Function(_, _, _) => Err(TypeFault::Mismatch(name.token.place)),
    }
}

/// An integer constant (C11 6.4.4.1).
#[tactic(auto, unfolding(typing_rules::specs::Expressions::operand))]
pub fn number(alloc: Global, known: &Known, token: &Leaf) -> Result<Operand, TypeFault>
    ensures { Gives (rules.operand (environment known.now) (syntax.Number token.now)) result }
{
    numbered(alloc, token.token.place, known.bytes(token))
}

/// A character constant (C11 6.4.4.4).
#[tactic(auto, unfolding(typing_rules::specs::Expressions::operand))]
pub fn character(alloc: Global, known: &Known, token: &Leaf) -> Result<Operand, TypeFault>
    ensures { Gives (rules.operand (environment known.now) (syntax.Character token.now)) result }
{
    character_operand(alloc, token.token.place, known.bytes(token))
}
