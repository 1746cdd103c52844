//! Initialisers that fit no object: the expressions in them keep their own rules first.

ghost use Rattle.std.specs.Prelude.{◌≡◌, Ok};
ghost use Rattle.typing_laws.specs.SmallTypes.{IsSmall};
ghost use Rattle.typing_rules.specs.Checked.{Gives};
ghost use Rattle.typing_rules.specs.TreesOfDeclarations as trees;
ghost use Rattle.typing_rules.specs.TreesOfExpressions.{assign as tree_of_assign};
ghost use Rattle.typing_rules.specs.Syntax.{Value as ValueOf};
ghost use Rattle.typing_scopes.specs.Known.{known as seen};
ghost use Rattle.typing_initialisers.specs.Initialisers as rules;

use c_grammar::declaration::Init;
use c_grammar::expression::Assign;
use c_lexer::Place;
use std::alloc::Global;
use typing_expressions::full::full;
use typing_rules::fault::TypeFault;
use typing_scopes::known::Known;
use typing_shapes::first::first_place;

#[tactic(auto, unfolding(typing_rules::specs::Initialisers::alone))]
fn value_alone(alloc: Global, known: &Known<'_>, x: &Assign) -> Result<(), TypeFault>
    requires { IsSmall (seen known.now) }
    ensures { Gives (rules.alone (seen known.now) (ValueOf (tree_of_assign x.now))) result }
{
    let _value = full(alloc, known, x)?;
    Ok(())
}

/// The rules that the expressions of an initialiser keep by themselves.
pub fn alone(alloc: Global, known: &Known<'_>, init: &Init) -> Result<(), TypeFault>
    requires { IsSmall (seen known.now) }
    ensures { Gives (rules.alone (seen known.now) (trees.init init.now)) result }
{
    match init {
        Init::Value(x) => value_alone(alloc, known, x.get()),
        Init::Braces(_, elements, _, _) => {
            let chain = elements.get();
            alone(alloc, known, &chain.first)?;
            for link in chain.rest.as_slice() {
                alone(alloc, known, &link.operand)?;
            }
            Ok(())
        }
    }
}

/// The place of the first token of an initialiser.
#[tactic(auto, using(typing_rules::proofs::DeclarationAlternatives::declarations))]
fn first_of(init: &Init) -> Place
    ensures { result ≡ rules.first_of (trees.init init.now) }
{
    match init {
        Init::Value(x) => first_place(x.get()),
        Init::Braces(opening, _, _, _) => opening.token.place,
    }
}

/// An initialiser of no object, which is one too many (C11 6.7.9, 2).
pub fn superfluous(alloc: Global, known: &Known<'_>, init: &Init) -> Result<(), TypeFault>
    requires { IsSmall (seen known.now) }
    ensures { Gives (rules.superfluous (seen known.now) (trees.init init.now)) result }
{
    alone(alloc, known, init)?;
    Err(TypeFault::BadInitialiser(first_of(init)))
}
