//! How many elements an empty `[ ]` has.

ghost use Rattle.std.specs.Prelude.{◌≡◌, ◌≤◌, Some};
ghost use Rattle.typing_rules.specs.Declarations as rules;
ghost use Rattle.typing_rules.specs.TreesOfDeclarations as trees;

use c_grammar::declaration::{Declared, Init};

/// The elements of an initialiser in braces, and else 1.
#[tactic(auto, using(crate::proofs::ElementCounts::value_count, crate::proofs::ElementCounts::braces_count))]
fn initialiser_count(init: &Init) -> usize
    ensures value { result ≡ rules.count_of (Some (trees.init init.now)) }
    ensures positive { 1 ≤ result }
{
    match init {
        Init::Value(_) => 1,
        Init::Braces(_, elements, _, _) => elements.get().rest.as_slice().len() + 1,
    }
}

/// The elements of a declared array without size: those of its initialiser (C11 6.7.9, 22).
#[tactic(auto, unfolding(typing_rules::specs::TreesOfDeclarations::declared))]
pub fn element_count(declared: &Declared) -> usize
    ensures value { result ≡ rules.count_of (trees.declared declared.now).initialiser }
    ensures positive { 1 ≤ result }
{
    match declared {
        Declared::Plain(_) => 1,
        Declared::Initialised(_, _, init) => initialiser_count(init),
    }
}
