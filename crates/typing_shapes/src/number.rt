//! Whether an expression is a number alone.

ghost use Rattle.std.specs.Prelude.{◌≡◌};
ghost use Rattle.typing_rules.specs.TreesOfExpressions as trees;
ghost use Rattle.typing_shapes.specs.Numbers as numbers;

use c_grammar::expression::{Assign, BitXor, Choice, Or, Postfix, Primary, Relation, Unary};
use c_words::chain::Chain;
use c_words::word::Leaf;

/// Whether the chain has one operand.
pub fn stands_alone<T>(chain: &Chain<T>) -> bool
    ensures { result ≡ numbers.is_lone chain.now }
{
    chain.rest.as_slice().is_empty()
}

#[tactic(auto, using(crate::proofs::NumberForms::primaries))]
fn of_primary(e: &Primary) -> Option<Leaf>
    ensures { result ≡ numbers.number_leaf (trees.primary e.now) }
{
    match e {
        Primary::Number(t) => Some(*t),
        Primary::Name(_)
        | Primary::Call(_, _, _, _)
        | Primary::Character(_)
        | Primary::Paren(_, _, _) => None,
    }
}

#[tactic(auto, using(crate::proofs::NumberForms::number_postfix))]
fn of_postfix(e: &Postfix) -> Option<Leaf>
    ensures { result ≡ numbers.number_leaf (trees.postfix e.now) }
{
    if e.suffixes.as_slice().is_empty() {
        of_primary(&e.primary)
    } else {
        None
    }
}

#[tactic(auto, using(crate::proofs::NumberForms::unaries))]
fn of_unary(e: &Unary) -> Option<Leaf>
    ensures { result ≡ numbers.number_leaf (trees.unary e.now) }
{
    match e {
        Unary::Postfix(x) => of_postfix(x),
        Unary::Prefix(_, _)
        | Unary::Cast(_, _, _, _)
        | Unary::SizeOf(_, _)
        | Unary::SizeOfType(_, _, _, _) => None,
    }
}

/// Whether no operator of the levels from `<` to `*` joins operands.
fn is_lone_relation(e: &Relation) -> bool
    ensures { result ≡ numbers.lone_relation e.now }
{
    let sum = &e.0.first.0.first;
    stands_alone(&e.0)
        && (stands_alone(&e.0.first.0) && (stands_alone(&sum.0) && stands_alone(&sum.0.first.0)))
}

/// Whether no operator of the levels from `^` to `*` joins operands.
fn is_lone_bit_xor(e: &BitXor) -> bool
    ensures { result ≡ numbers.lone_bit_xor e.now }
{
    let equal = &e.0.first.0.first;
    stands_alone(&e.0)
        && (stands_alone(&e.0.first.0)
            && (stands_alone(&equal.0) && is_lone_relation(&equal.0.first)))
}

/// Whether no operator of a chain joins operands.
pub fn is_lone_or(e: &Or) -> bool
    ensures { result ≡ numbers.lone_or e.now }
{
    let bit_or = &e.0.first.0.first;
    stands_alone(&e.0)
        && (stands_alone(&e.0.first.0)
            && (stands_alone(&bit_or.0) && is_lone_bit_xor(&bit_or.0.first)))
}

#[tactic(auto, using(crate::proofs::NumberForms::number_or))]
fn of_or(e: &Or) -> Option<Leaf>
    ensures { result ≡ numbers.number_leaf (trees.or e.now) }
{
    let bit_or = &e.0.first.0.first;
    let equal = &bit_or.0.first.0.first.0.first;
    let shift = &equal.0.first.0.first;
    let product = &shift.0.first.0.first;
    if is_lone_or(e) {
        of_unary(&product.0.first)
    } else {
        None
    }
}

#[tactic(auto, using(crate::proofs::NumberForms::choices))]
fn of_choice(e: &Choice) -> Option<Leaf>
    ensures { result ≡ numbers.number_leaf (trees.choice e.now) }
{
    match e {
        Choice::Or(x) => of_or(x.get()),
        Choice::Choose(_, _, _, _, _) => None,
    }
}

/// The token of an expression that is a number, without parentheses.
#[tactic(auto, using(crate::proofs::NumberForms::assigns))]
pub fn number(e: &Assign) -> Option<Leaf>
    ensures { result ≡ numbers.number_leaf (trees.assign e.now) }
{
    match e {
        Assign::Choice(x) => of_choice(x),
        Assign::Assign(_, _, _) => None,
    }
}
