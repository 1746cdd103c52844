//! Whether the indices of a place are literals, as an address constant asks (C11 6.6, 9).

ghost use Rattle.std.specs.Prelude.{◌≡◌, ◌<◌};
ghost use Rattle.c_grammar.specs.declared.expression.Or.{size-Or};
ghost use Rattle.c_grammar.specs.declared.expression.Unary.{size-Unary};
ghost use Rattle.typing_rules.specs.ConstantExpressions as rules;
ghost use Rattle.typing_rules.specs.Syntax.{Expression};
ghost use Rattle.typing_rules.specs.TreesOfExpressions as trees;
ghost use Rattle.typing_shapes.specs.Numbers.{unary_in_or};

use crate::number::is_lone_or;
use crate::request::first_product;
use c_grammar::expression::{Assign, Choice, Or, Postfix, Primary, Suffix, Unary};

/// The first operand that no operator of a chain joins.
fn first_unary(e: &Or) -> &Unary
    ensures first { result.now ≡ unary_in_or e.now }
    ensures within { size-Unary result.now < size-Or e.now }
{
    &first_product(e).0.first
}

/// Whether the expression is a number or a character, in any parentheses.
#[cycle(literal)]
#[tactic(auto, using(crate::proofs::IndexForms::literals))]
pub fn is_literal(e: &Assign) -> bool
    ensures { result ≡ rules.is_literal (trees.assign e.now) }
{
    match e {
        Assign::Choice(x) => literal_choice(x),
        Assign::Assign(_, _, _) => false,
    }
}

#[cycle(literal)]
#[tactic(auto, using(crate::proofs::IndexForms::literals))]
fn literal_choice(e: &Choice) -> bool
    ensures { result ≡ rules.is_literal (trees.choice e.now) }
{
    match e {
        Choice::Or(x) => literal_or(x.get()),
        Choice::Choose(_, _, _, _, _) => false,
    }
}

#[cycle(literal)]
#[tactic(auto, using(crate::proofs::IndexForms::literal_in_or))]
fn literal_or(e: &Or) -> bool
    ensures { result ≡ rules.is_literal (trees.or e.now) }
{
    if is_lone_or(e) {
        literal_unary(first_unary(e))
    } else {
        false
    }
}

#[cycle(literal)]
#[tactic(auto, using(crate::proofs::IndexForms::literals))]
fn literal_unary(e: &Unary) -> bool
    ensures { result ≡ rules.is_literal (trees.unary e.now) }
{
    match e {
        Unary::Postfix(x) => literal_postfix(x),
        Unary::Prefix(_, _)
        | Unary::Cast(_, _, _, _)
        | Unary::SizeOf(_, _)
        | Unary::SizeOfType(_, _, _, _) => false,
    }
}

#[cycle(literal)]
#[tactic(auto, using(crate::proofs::IndexForms::literal_in_postfix))]
fn literal_postfix(e: &Postfix) -> bool
    ensures { result ≡ rules.is_literal (trees.postfix e.now) }
{
    if e.suffixes.as_slice().is_empty() {
        literal_primary(&e.primary)
    } else {
        false
    }
}

#[cycle(literal)]
#[tactic(auto, using(crate::proofs::IndexForms::literals))]
fn literal_primary(e: &Primary) -> bool
    ensures { result ≡ rules.is_literal (trees.primary e.now) }
{
    match e {
        Primary::Number(_) | Primary::Character(_) => true,
        Primary::Paren(_, inside, _) => is_literal(inside.get()),
        Primary::Name(_) | Primary::Call(_, _, _, _) => false,
    }
}

/// Whether the indices are literals in an expression with this suffix more.
#[tactic(auto, using(crate::proofs::IndexForms::indices_after))]
fn after_suffix(suffix: &Suffix, before: bool) -> bool
    ensures { (x : Expression) → rules.has_literal_indices x ≡ before → rules.has_literal_indices (trees.suffix suffix.now x) ≡ result }
{
    match suffix {
        Suffix::Index(_, index, _) => before && is_literal(index.get()),
        Suffix::Member(_, _) => before,
        Suffix::Arrow(_, _) | Suffix::Increment(_) | Suffix::Decrement(_) => true,
    }
}

/// Whether each index of the place that the expression names, or takes the address of, is a literal.
#[cycle(indices)]
#[tactic(auto, using(crate::proofs::IndexForms::indices))]
pub fn has_literal_indices(e: &Assign) -> bool
    ensures { result ≡ rules.has_literal_indices (trees.assign e.now) }
{
    match e {
        Assign::Choice(x) => indices_choice(x),
        Assign::Assign(_, _, _) => true,
    }
}

#[cycle(indices)]
#[tactic(auto, using(crate::proofs::IndexForms::indices))]
fn indices_choice(e: &Choice) -> bool
    ensures { result ≡ rules.has_literal_indices (trees.choice e.now) }
{
    match e {
        Choice::Or(x) => indices_or(x.get()),
        Choice::Choose(_, _, _, _, _) => true,
    }
}

#[cycle(indices)]
#[tactic(auto, using(crate::proofs::IndexForms::indices_in_or))]
fn indices_or(e: &Or) -> bool
    ensures { result ≡ rules.has_literal_indices (trees.or e.now) }
{
    if is_lone_or(e) {
        indices_unary(first_unary(e))
    } else {
        true
    }
}

#[cycle(indices)]
#[tactic(auto, using(crate::proofs::IndexForms::indices))]
fn indices_unary(e: &Unary) -> bool
    ensures { result ≡ rules.has_literal_indices (trees.unary e.now) }
{
    match e {
        Unary::Postfix(x) => indices_postfix(x),
        Unary::Prefix(_, operand) => indices_unary(operand.get()),
        Unary::Cast(_, _, _, _) | Unary::SizeOf(_, _) | Unary::SizeOfType(_, _, _, _) => true,
    }
}

#[cycle(indices)]
fn indices_postfix(e: &Postfix) -> bool
    ensures { result ≡ rules.has_literal_indices (trees.postfix e.now) }
{
    let mut literal = indices_primary(&e.primary);
    for suffix in e.suffixes.as_slice() {
        literal = after_suffix(suffix, literal);
    }
    literal
}

#[cycle(indices)]
#[tactic(auto, using(crate::proofs::IndexForms::indices))]
fn indices_primary(e: &Primary) -> bool
    ensures { result ≡ rules.has_literal_indices (trees.primary e.now) }
{
    match e {
        Primary::Paren(_, inside, _) => has_literal_indices(inside.get()),
        Primary::Name(_) | Primary::Number(_) | Primary::Character(_) | Primary::Call(_, _, _, _) =>
            true,
    }
}
