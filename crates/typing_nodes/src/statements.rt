//! Weighted nodes of statements: one for each, and those of its parts.
//!
//! The step of a `for` and the test of a `do` count once more for each `continue` of the loop.

ghost use Rattle.std.specs.Prelude.{◌≡◌, ◌-◌, ◌*◌};
ghost use Rattle.std.specs.Option.{option_map};
ghost use Rattle.typing_rules.specs.Nodes.{nodes};
ghost use Rattle.typing_rules.specs.Weights.{nodes_there, continues, all_continues, first_weight, declared_weight, statement_weight, statements_weight};
ghost use Rattle.typing_rules.specs.TreesOfExpressions as expressions;
ghost use Rattle.typing_rules.specs.TreesOfDeclarations as trees;

use crate::declarations::all_declared;
use crate::nodes::assign;
use c_grammar::expression::Assign;
use c_grammar::statement::{Block, BlockPart, ForFirst, Local, Stmt};
use c_grammar::whole::Expression;

#[tactic(auto, unfolding(typing_rules::specs::TreesOfDeclarations::local))]
fn local(tree: &Local, room: u64) -> u64
    ensures { result ≡ room - declared_weight (trees.local tree.now).declared }
{
    match tree {
        Local::Variables(_, _, all, _) => all_declared(all, room),
        Local::Registers(_, _, all, _) => all_declared(all, room),
    }
}

fn expression_there(tree: &Option<Expression>, room: u64) -> u64
    ensures { result ≡ room - nodes_there (option_map expressions.assign tree.now) }
{
    match tree {
        None => room,
        Some(value) => assign(value.get(), room),
    }
}

#[tactic(auto, unfolding(typing_rules::specs::TreesOfDeclarations::for_first))]
fn first_part(tree: &ForFirst, room: u64) -> u64
    ensures { result ≡ room - first_weight (trees.for_first tree.now) }
{
    match tree {
        ForFirst::Local(names) => local(names, room),
        ForFirst::Expression(None, _) => room,
        ForFirst::Expression(Some(value), _) => assign(value.get(), room),
    }
}

// ---- what stands once more before each `continue`

/// The nodes of the expression, once for each `continue` of the loop whose body this is.
#[cycle(continues)]
#[tactic(auto, using(crate::proofs::StatementParts::continues_of))]
fn at_continues(tree: &Stmt, value: &Assign, room: u64) -> u64
    ensures { result ≡ room - continues (trees.stmt tree.now) * nodes (expressions.assign value.now) }
{
    match tree {
        Stmt::Continue(_, _) => assign(value, room),
        Stmt::Block(block) => in_block(block.get(), value, room),
        Stmt::If(_, _, _, _, body) => at_continues(body.get(), value, room),
        Stmt::IfElse(_, _, _, _, body, _, other) => {
            let left = at_continues(body.get(), value, room);
            at_continues(other.get(), value, left)
        }
        Stmt::Empty(_) => room,
        Stmt::Expression(_, _) => room,
        Stmt::While(_, _, _, _, _) => room,
        Stmt::Do(_, _, _, _, _, _, _) => room,
        Stmt::For(_, _, _, _, _, _, _, _) => room,
        Stmt::Break(_, _) => room,
        Stmt::Return(_, _, _) => room,
        Stmt::Ghost(_) => room,
        Stmt::Assert(_) => room,
    }
}

#[cycle(continues)]
#[tactic(auto, using(crate::proofs::StatementParts::continues_of))]
fn in_part(tree: &BlockPart, value: &Assign, room: u64) -> u64
    ensures { result ≡ room - continues (trees.block_part tree.now) * nodes (expressions.assign value.now) }
{
    match tree {
        BlockPart::Local(_) => room,
        BlockPart::Stmt(statement) => at_continues(statement, value, room),
    }
}

#[cycle(continues)]
#[tactic(auto, using(crate::proofs::StatementParts::block_continues), unfolding(crate::specs::Counts::parts_continues))]
fn in_block(tree: &Block, value: &Assign, room: u64) -> u64
    ensures { result ≡ room - all_continues (trees.block tree.now) * nodes (expressions.assign value.now) }
{
    let mut left = room;
    for part in tree.parts.as_slice() {
        left = in_part(part, value, left);
    }
    left
}

/// The step of a `for`, once for each `continue`.
fn step_at_continues(tree: &Stmt, step: &Option<Expression>, room: u64) -> u64
    ensures { result ≡ room - continues (trees.stmt tree.now) * nodes_there (option_map expressions.assign step.now) }
{
    match step {
        None => room,
        Some(value) => at_continues(tree, value.get(), room),
    }
}

// ---- statements

#[cycle(weights)]
#[tactic(auto, using(crate::proofs::StatementParts::weights_of, crate::proofs::StatementParts::once_more))]
pub fn statement(tree: &Stmt, room: u64) -> u64
    ensures { result ≡ room - statement_weight (trees.stmt tree.now) }
{
    let room = room.saturating_sub(1);
    match tree {
        Stmt::Empty(_) => room,
        Stmt::Expression(value, _) => assign(value.get(), room),
        Stmt::Block(inside) => block(inside.get(), room),
        Stmt::If(_, _, test, _, body) => statement(body.get(), assign(test.get(), room)),
        Stmt::IfElse(_, _, test, _, body, _, other) => {
            let left = statement(body.get(), assign(test.get(), room));
            statement(other.get(), left)
        }
        Stmt::While(_, _, test, _, body) => statement(body.get(), assign(test.get(), room)),
        Stmt::Do(_, body, _, _, test, _, _) => {
            let left = statement(body.get(), assign(test.get(), room));
            at_continues(body.get(), test.get(), left)
        }
        Stmt::For(_, _, first, test, _, step, _, body) => {
            let left = expression_there(test, first_part(first, room));
            let left = step_at_continues(body.get(), step, expression_there(step, left));
            statement(body.get(), left)
        }
        Stmt::Break(_, _) => room,
        Stmt::Continue(_, _) => room,
        Stmt::Return(_, value, _) => expression_there(value, room),
        Stmt::Ghost(_) => room,
        Stmt::Assert(_) => room,
    }
}

#[cycle(weights)]
#[tactic(auto, using(crate::proofs::StatementParts::weights_of))]
fn part(tree: &BlockPart, room: u64) -> u64
    ensures { result ≡ room - statement_weight (trees.block_part tree.now) }
{
    match tree {
        BlockPart::Local(names) => local(names, room),
        BlockPart::Stmt(inside) => statement(inside, room),
    }
}

#[cycle(weights)]
#[tactic(auto, using(crate::proofs::StatementParts::block_weight), unfolding(crate::specs::Counts::parts_weight))]
pub fn block(tree: &Block, room: u64) -> u64
    ensures { result ≡ room - statements_weight (trees.block tree.now) }
{
    let mut left = room;
    for next in tree.parts.as_slice() {
        left = part(next, left);
    }
    left
}
