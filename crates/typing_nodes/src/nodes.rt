//! The nodes of expressions: each name, literal, operator, call, index, member and cast is one.

ghost use Rattle.std.specs.Prelude.{◌≡◌, ◌-◌, map};
ghost use Rattle.typing_rules.specs.Nodes.{nodes, all_nodes};
ghost use Rattle.typing_rules.specs.Syntax.{Expression};
ghost use Rattle.typing_rules.specs.TreesOfExpressions as trees;
ghost use Rattle.typing_nodes.specs.Counts.{arguments_of};

use c_grammar::expression::{
    And, Assign, BitAnd, BitOr, BitXor, Choice, Equal, Or, Postfix, Primary, Product, Relation,
    Shift, Suffix, Sum, Unary,
};
use c_words::chain::Chain;
use sqlite_items::Boxed;

#[cycle(nodes)]
#[tactic(auto, using(typing_rules::proofs::ExpressionAlternatives::expressions))]
pub fn assign(tree: &Assign, room: u64) -> u64
    ensures { result ≡ room - nodes (trees.assign tree.now) }
{
    match tree {
        Assign::Choice(x) => choice(x, room),
        Assign::Assign(left, _, right) => {
            let after_left = unary(left, room.saturating_sub(1));
            assign(right.get(), after_left)
        }
    }
}

#[cycle(nodes)]
#[tactic(auto, using(typing_rules::proofs::ExpressionAlternatives::expressions))]
pub fn choice(tree: &Choice, room: u64) -> u64
    ensures { result ≡ room - nodes (trees.choice tree.now) }
{
    match tree {
        Choice::Or(x) => or(x.get(), room),
        Choice::Choose(test, _, second, _, third) => {
            let after_test = or(test.get(), room.saturating_sub(1));
            let after_second = assign(second.get(), after_test);
            choice(third.get(), after_second)
        }
    }
}

#[cycle(nodes)]
#[tactic(auto, using(typing_rules::proofs::ExpressionAlternatives::expressions))]
pub fn unary(tree: &Unary, room: u64) -> u64
    ensures { result ≡ room - nodes (trees.unary tree.now) }
{
    match tree {
        Unary::Postfix(x) => postfix(x, room),
        Unary::Prefix(_, x) => unary(x.get(), room.saturating_sub(1)),
        Unary::Cast(_, _, _, x) => unary(x.get(), room.saturating_sub(1)),
        Unary::SizeOf(_, x) => unary(x.get(), room.saturating_sub(1)),
        Unary::SizeOfType(_, _, _, _) => room.saturating_sub(1),
    }
}

#[cycle(nodes)]
#[tactic(auto, using(typing_rules::proofs::ExpressionAlternatives::expressions, crate::proofs::Alternatives::call_nodes))]
pub fn primary(tree: &Primary, room: u64) -> u64
    ensures { result ≡ room - nodes (trees.primary tree.now) }
{
    match tree {
        Primary::Name(_) => room.saturating_sub(1),
        Primary::Number(_) => room.saturating_sub(1),
        Primary::Character(_) => room.saturating_sub(1),
        Primary::Call(_, _, arguments, _) => list(arguments, room.saturating_sub(1)),
        Primary::Paren(_, inside, _) => assign(inside.get(), room),
    }
}

/// The arguments of a call.
#[cycle(nodes)]
#[tactic(auto, using(crate::proofs::Alternatives::listed_some, crate::proofs::Alternatives::listed_none), unfolding(crate::specs::Counts::after_nodes))]
fn list(arguments: &Option<Boxed<Chain<Assign>>>, room: u64) -> u64
    ensures { result ≡ room - all_nodes (trees.listed trees.assign (arguments_of arguments.now)) }
{
    match arguments {
        None => room,
        Some(arguments) => {
            let chain = arguments.get();
            let mut left = assign(&chain.first, room);
            for link in chain.rest.as_slice() {
                left = assign(&link.operand, left);
            }
            left
        }
    }
}

/// A suffix after an operand, whose nodes were taken away already.
#[cycle(nodes)]
#[tactic(auto, using(typing_rules::proofs::ExpressionAlternatives::expressions))]
fn suffix(tree: &Suffix, room: u64) -> u64
    ensures { (x : Expression) (total : _) → room ≡ total - nodes x → result ≡ total - nodes (trees.suffix tree.now x) }
{
    match tree {
        Suffix::Index(_, index, _) => assign(index.get(), room.saturating_sub(1)),
        Suffix::Member(_, _) => room.saturating_sub(1),
        Suffix::Arrow(_, _) => room.saturating_sub(1),
        Suffix::Increment(_) => room.saturating_sub(1),
        Suffix::Decrement(_) => room.saturating_sub(1),
    }
}

#[cycle(nodes)]
#[tactic(auto, using(crate::proofs::Alternatives::postfix_nodes, crate::proofs::Alternatives::suffixed_more, crate::proofs::Alternatives::suffixed_none))]
fn postfix(tree: &Postfix, room: u64) -> u64
    ensures { result ≡ room - nodes (trees.postfix tree.now) }
{
    let mut left = primary(&tree.primary, room);
    for next in tree.suffixes.as_slice() {
        left = suffix(next, left);
    }
    left
}

#[cycle(nodes)]
#[tactic(auto, using(crate::proofs::Alternatives::level_product), unfolding(crate::specs::Counts::link_nodes))]
fn product(tree: &Product, room: u64) -> u64
    ensures { result ≡ room - nodes (trees.product tree.now) }
{
    let mut left = unary(&tree.0.first, room);
    for link in tree.0.rest.as_slice() {
        left = unary(&link.operand, left.saturating_sub(1));
    }
    left
}

#[cycle(nodes)]
#[tactic(auto, using(crate::proofs::Alternatives::level_sum), unfolding(crate::specs::Counts::link_nodes))]
fn sum(tree: &Sum, room: u64) -> u64
    ensures { result ≡ room - nodes (trees.sum tree.now) }
{
    let mut left = product(&tree.0.first, room);
    for link in tree.0.rest.as_slice() {
        left = product(&link.operand, left.saturating_sub(1));
    }
    left
}

#[cycle(nodes)]
#[tactic(auto, using(crate::proofs::Alternatives::level_shift), unfolding(crate::specs::Counts::link_nodes))]
fn shift(tree: &Shift, room: u64) -> u64
    ensures { result ≡ room - nodes (trees.shift tree.now) }
{
    let mut left = sum(&tree.0.first, room);
    for link in tree.0.rest.as_slice() {
        left = sum(&link.operand, left.saturating_sub(1));
    }
    left
}

#[cycle(nodes)]
#[tactic(auto, using(crate::proofs::Alternatives::level_relation), unfolding(crate::specs::Counts::link_nodes))]
fn relation(tree: &Relation, room: u64) -> u64
    ensures { result ≡ room - nodes (trees.relation tree.now) }
{
    let mut left = shift(&tree.0.first, room);
    for link in tree.0.rest.as_slice() {
        left = shift(&link.operand, left.saturating_sub(1));
    }
    left
}

#[cycle(nodes)]
#[tactic(auto, using(crate::proofs::Alternatives::level_equal), unfolding(crate::specs::Counts::link_nodes))]
fn equal(tree: &Equal, room: u64) -> u64
    ensures { result ≡ room - nodes (trees.equal tree.now) }
{
    let mut left = relation(&tree.0.first, room);
    for link in tree.0.rest.as_slice() {
        left = relation(&link.operand, left.saturating_sub(1));
    }
    left
}

#[cycle(nodes)]
#[tactic(auto, using(crate::proofs::Alternatives::level_bit_and), unfolding(crate::specs::Counts::link_nodes))]
fn bit_and(tree: &BitAnd, room: u64) -> u64
    ensures { result ≡ room - nodes (trees.bit_and tree.now) }
{
    let mut left = equal(&tree.0.first, room);
    for link in tree.0.rest.as_slice() {
        left = equal(&link.operand, left.saturating_sub(1));
    }
    left
}

#[cycle(nodes)]
#[tactic(auto, using(crate::proofs::Alternatives::level_bit_xor), unfolding(crate::specs::Counts::link_nodes))]
fn bit_xor(tree: &BitXor, room: u64) -> u64
    ensures { result ≡ room - nodes (trees.bit_xor tree.now) }
{
    let mut left = bit_and(&tree.0.first, room);
    for link in tree.0.rest.as_slice() {
        left = bit_and(&link.operand, left.saturating_sub(1));
    }
    left
}

#[cycle(nodes)]
#[tactic(auto, using(crate::proofs::Alternatives::level_bit_or), unfolding(crate::specs::Counts::link_nodes))]
fn bit_or(tree: &BitOr, room: u64) -> u64
    ensures { result ≡ room - nodes (trees.bit_or tree.now) }
{
    let mut left = bit_xor(&tree.0.first, room);
    for link in tree.0.rest.as_slice() {
        left = bit_xor(&link.operand, left.saturating_sub(1));
    }
    left
}

#[cycle(nodes)]
#[tactic(auto, using(crate::proofs::Alternatives::level_and), unfolding(crate::specs::Counts::link_nodes))]
fn and(tree: &And, room: u64) -> u64
    ensures { result ≡ room - nodes (trees.and tree.now) }
{
    let mut left = bit_or(&tree.0.first, room);
    for link in tree.0.rest.as_slice() {
        left = bit_or(&link.operand, left.saturating_sub(1));
    }
    left
}

#[cycle(nodes)]
#[tactic(auto, using(crate::proofs::Alternatives::level_or), unfolding(crate::specs::Counts::link_nodes))]
fn or(tree: &Or, room: u64) -> u64
    ensures { result ≡ room - nodes (trees.or tree.now) }
{
    let mut left = and(&tree.0.first, room);
    for link in tree.0.rest.as_slice() {
        left = and(&link.operand, left.saturating_sub(1));
    }
    left
}
