//! Weighted nodes of declarations: one for each declarator, and the nodes of sizes and initialisers.

ghost use Rattle.std.specs.Prelude.{◌≡◌, ◌-◌, ◌+◌, map, sum_by};
ghost use Rattle.typing_rules.specs.Weights.{modifier_nodes, modifiers_weight, initialiser_nodes, initialiser_weight, declared_weight};
ghost use Rattle.typing_rules.specs.TreesOfDeclarations as trees;

use crate::nodes::{assign, choice};
use c_grammar::declaration::{Declarator, Declared, Direct, Init, Parameter, Params, Sizes};
use c_words::chain::Chain;

#[cycle(declarator)]
#[tactic(auto, using(crate::proofs::Modifiers::direct_nodes))]
fn direct_sizes(tree: &Direct, room: u64) -> u64
    ensures { result ≡ room - sum_by modifier_nodes (trees.direct tree.now).modifiers }
{
    match tree {
        Direct::Name(_) => room,
        Direct::Unsized(_, _, _) => room,
        Direct::Paren(_, inside, _) => sizes_of(inside.get(), room),
        Direct::Array(before, _, size, _) => {
            let left = direct_sizes(before.get(), room);
            choice(size.get(), left)
        }
    }
}

#[cycle(declarator)]
#[tactic(auto, using(crate::proofs::Modifiers::declarator_nodes))]
fn sizes_of(tree: &Declarator, room: u64) -> u64
    ensures { result ≡ room - sum_by modifier_nodes (trees.declarator tree.now).modifiers }
{
    direct_sizes(&tree.direct, room)
}

/// A declarator with its sizes.
pub fn declarator(tree: &Declarator, room: u64) -> u64
    ensures { result ≡ room - modifiers_weight (trees.declarator tree.now).modifiers }
{
    sizes_of(tree, room.saturating_sub(1))
}

/// An initialiser, in braces or not.
#[tactic(auto, using(crate::proofs::Modifiers::initialisers), unfolding(crate::specs::Counts::elements_nodes))]
pub fn initialiser(tree: &Init, room: u64) -> u64
    ensures { result ≡ room - initialiser_nodes (trees.init tree.now) }
{
    match tree {
        Init::Value(value) => assign(value.get(), room),
        Init::Braces(_, elements, _, _) => {
            let chain = elements.get();
            let mut left = initialiser(&chain.first, room);
            for link in chain.rest.as_slice() {
                left = initialiser(&link.operand, left);
            }
            left
        }
    }
}

/// A declarator with its initialiser.
#[tactic(auto, unfolding(typing_rules::specs::TreesOfDeclarations::declared))]
fn declared(tree: &Declared, room: u64) -> u64
    ensures { result ≡ room - (modifiers_weight (trees.declared tree.now).declarator.modifiers + initialiser_weight (trees.declared tree.now).initialiser) }
{
    match tree {
        Declared::Plain(name) => declarator(name, room),
        Declared::Initialised(name, _, value) => {
            let left = declarator(name, room);
            initialiser(value, left)
        }
    }
}

/// What one declaration declares.
#[tactic(auto, using(crate::proofs::Modifiers::declared_chain), unfolding(crate::specs::Counts::declared_nodes))]
pub fn all_declared(all: &Chain<Declared>, room: u64) -> u64
    ensures { result ≡ room - declared_weight (map trees.declared (trees.operands all.now)) }
{
    let mut left = declared(&all.first, room);
    for link in all.rest.as_slice() {
        left = declared(&link.operand, left);
    }
    left
}

/// The sizes of a parameter without name.
#[tactic(auto, using(crate::proofs::Modifiers::sizes_nodes))]
fn nameless_sizes(tree: &Sizes, room: u64) -> u64
    ensures { result ≡ room - sum_by modifier_nodes (trees.sizes tree.now) }
{
    match tree {
        Sizes::Unsized(_, _) => room,
        Sizes::First(_, size, _) => choice(size.get(), room),
        Sizes::More(before, _, size, _) => {
            let left = nameless_sizes(before.get(), room);
            choice(size.get(), left)
        }
    }
}

#[tactic(auto, using(crate::proofs::Modifiers::nameless_nodes), unfolding(typing_rules::specs::TreesOfDeclarations::parameter))]
fn parameter(tree: &Parameter, room: u64) -> u64
    ensures { result ≡ room - modifiers_weight (trees.parameter tree.now).modifiers }
{
    match tree {
        Parameter::Named(_, _, name) => declarator(name, room),
        Parameter::Nameless(_, _, _, None) => room.saturating_sub(1),
        Parameter::Nameless(_, _, _, Some(sizes)) => {
            nameless_sizes(sizes, room.saturating_sub(1))
        }
    }
}

/// The parameters of a function.
#[tactic(auto, using(crate::proofs::Modifiers::parameter_chain), unfolding(typing_rules::specs::TreesOfDeclarations::params, crate::specs::Counts::parameter_nodes))]
pub fn parameters(tree: &Params, room: u64) -> u64
    ensures { result ≡ room - sum_by (λ p. modifiers_weight p.modifiers) (trees.params tree.now) }
{
    match tree {
        Params::Empty => room,
        Params::Void(_) => room,
        Params::List(all) => {
            let mut left = parameter(&all.first, room);
            for link in all.rest.as_slice() {
                left = parameter(&link.operand, left);
            }
            left
        }
    }
}
