//! Where an expression begins.

ghost use Rattle.std.specs.Prelude.{◌≡◌};
ghost use Rattle.typing_rules.specs.Nodes as spec;
ghost use Rattle.typing_rules.specs.TreesOfExpressions as trees;

use c_grammar::expression::{Assign, Choice, Or, Postfix, Primary, Product, Unary};
use c_lexer::Place;

/// The first token of an expression of the highest level that isn't a chain.
#[tactic(auto, using(typing_rules::proofs::ExpressionAlternatives::expressions), unfolding(typing_rules::specs::Nodes::first_place))]
fn of_primary(e: &Primary) -> Place
    ensures { result ≡ spec.first_place (trees.primary e.now) }
{
    match e {
        Primary::Name(t) => t.token.place,
        Primary::Call(t, _, _, _) => t.token.place,
        Primary::Number(t) => t.token.place,
        Primary::Character(t) => t.token.place,
        Primary::Paren(t, _, _) => t.token.place,
    }
}

fn of_postfix(e: &Postfix) -> Place
    ensures { result ≡ spec.first_place (trees.postfix e.now) }
{
    of_primary(&e.primary)
}

#[tactic(auto, using(typing_rules::proofs::ExpressionAlternatives::expressions), unfolding(typing_rules::specs::Nodes::first_place))]
fn of_unary(e: &Unary) -> Place
    ensures { result ≡ spec.first_place (trees.unary e.now) }
{
    match e {
        Unary::Postfix(x) => of_postfix(x),
        Unary::Prefix(t, _) => t.token.place,
        Unary::Cast(t, _, _, _) => t.token.place,
        Unary::SizeOf(t, _) => t.token.place,
        Unary::SizeOfType(t, _, _, _) => t.token.place,
    }
}

fn of_product(e: &Product) -> Place
    ensures { result ≡ spec.first_place (trees.product e.now) }
{
    of_unary(&e.0.first)
}

fn of_or(e: &Or) -> Place
    ensures { result ≡ spec.first_place (trees.or e.now) }
{
    let bit_or = &e.0.first.0.first;
    let equal = &bit_or.0.first.0.first.0.first;
    let shift = &equal.0.first.0.first;
    of_product(&shift.0.first.0.first)
}

#[tactic(auto, using(typing_rules::proofs::ExpressionAlternatives::expressions), unfolding(typing_rules::specs::Nodes::first_place))]
fn of_choice(e: &Choice) -> Place
    ensures { result ≡ spec.first_place (trees.choice e.now) }
{
    match e {
        Choice::Or(x) => of_or(x.get()),
        Choice::Choose(x, _, _, _, _) => of_or(x.get()),
    }
}

/// The place of an expression's first token.
#[tactic(auto, using(typing_rules::proofs::ExpressionAlternatives::expressions), unfolding(typing_rules::specs::Nodes::first_place))]
pub fn first_place(e: &Assign) -> Place
    ensures { result ≡ spec.first_place (trees.assign e.now) }
{
    match e {
        Assign::Choice(x) => of_choice(x),
        Assign::Assign(x, _, _) => of_unary(x),
    }
}
