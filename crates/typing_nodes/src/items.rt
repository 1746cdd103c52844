//! Weighted nodes of items and of whole programs.

ghost use Rattle.std.specs.Prelude.{◌≡◌, ◌-◌, map, sum_by};
ghost use Rattle.typing_rules.specs.Weights.{modifiers_weight, declared_weight, body_weight, item_weight, weight};
ghost use Rattle.typing_rules.specs.TreesOfDeclarations as trees;

use crate::declarations::{all_declared, declarator, parameters};
use crate::statements::block;
use c_grammar::declaration::{Declarator, Declared};
use c_grammar::program::{Body, Item, Member, ProgramTree};
use c_words::chain::Chain;

#[tactic(auto, using(crate::proofs::ItemParts::declarator_chain), unfolding(crate::specs::Counts::declarator_nodes))]
fn declarators(all: &Chain<Declarator>, room: u64) -> u64
    ensures { result ≡ room - sum_by (λ d. modifiers_weight d.modifiers) (map trees.declarator (trees.operands all.now)) }
{
    let mut left = declarator(&all.first, room);
    for link in all.rest.as_slice() {
        left = declarator(&link.operand, left);
    }
    left
}

#[tactic(auto, using(crate::proofs::ItemParts::members_first), unfolding(crate::specs::Counts::member_nodes, typing_rules::specs::TreesOfDeclarations::members))]
fn members(all: &[Member], room: u64) -> u64
    ensures { result ≡ room - sum_by (λ m. sum_by (λ d. modifiers_weight d.modifiers) m.declarators) (map trees.members all.now) }
{
    let mut left = room;
    for member in all {
        left = declarators(&member.declarators, left);
    }
    left
}

#[tactic(auto, unfolding(typing_rules::specs::TreesOfDeclarations::operands_there, typing_rules::specs::Weights::declared_weight))]
fn declared_there(all: &Option<Chain<Declared>>, room: u64) -> u64
    ensures { result ≡ room - declared_weight (map trees.declared (trees.operands_there all.now)) }
{
    match all {
        None => room,
        Some(all) => all_declared(all, room),
    }
}

#[tactic(auto, unfolding(typing_rules::specs::TreesOfDeclarations::body))]
fn body(tree: &Body, room: u64) -> u64
    ensures { result ≡ room - body_weight (trees.body tree.now) }
{
    match tree {
        Body::Absent(_) => room,
        Body::Block(inside) => block(inside, room),
    }
}

#[tactic(auto, unfolding(typing_rules::specs::TreesOfDeclarations::item, typing_rules::specs::Weights::item_weight))]
fn item(tree: &Item, room: u64) -> u64
    ensures { result ≡ room - item_weight (trees.item tree.now) }
{
    match tree {
        Item::Struct(_, _, _, all, _, names, _) => {
            let left = members(all.as_slice(), room);
            declared_there(names, left)
        }
        Item::Variables(_, _, names, _) => all_declared(names, room),
        Item::Function(_, _, _, _, _, inside, _, rest) => {
            let left = parameters(inside, room);
            body(rest, left)
        }
        Item::Meta(_) => room,
        Item::Ghost(_) => room,
    }
}

/// The weighted nodes of a program, but for the cells of its locals' initialisers.
#[tactic(auto, using(crate::proofs::ItemParts::items_first), unfolding(crate::specs::Counts::item_nodes, typing_rules::specs::TreesOfDeclarations::program))]
pub fn program(tree: &ProgramTree, room: u64) -> u64
    ensures { result ≡ room - weight (trees.program tree.now) }
{
    let mut left = room;
    for next in tree.items.as_slice() {
        left = item(next, left);
    }
    left
}
