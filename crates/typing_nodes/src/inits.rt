//! The cells that the initialisers of a core's locals fill.

ghost use Rattle.std.specs.Prelude.{◌≡◌, ◌-◌, sum_by};
ghost use Rattle.typing_rules.specs.Weights.{inits as inits_of, init_cells};

use step_meaning::{Function, Stmt};

#[cycle(inits)]
#[tactic(auto, using(crate::proofs::InitParts::inits_of), unfolding(crate::specs::Counts::init_nodes))]
fn inits(tree: &Stmt, room: u64) -> u64
    ensures { result ≡ room - inits_of tree.now }
{
    match tree {
        Stmt::Init(_, _, _, _) => room.saturating_sub(1),
        Stmt::Block(inside) => {
            let mut left = room;
            for next in inside.as_slice() {
                left = inits(next, left);
            }
            left
        }
        Stmt::If(_, first, second) => inits(second.get(), inits(first.get(), room)),
        Stmt::While(_, body) => inits(body.get(), room),
        Stmt::Do(body, _) => inits(body.get(), room),
        Stmt::For(_, _, body) => inits(body.get(), room),
        Stmt::Empty => room,
        Stmt::Eval(_) => room,
        Stmt::Break => room,
        Stmt::Continue => room,
        Stmt::Return(_) => room,
        Stmt::Ghost(_) => room,
        Stmt::Assert(_, _, _) => room,
    }
}

#[tactic(auto, using(crate::proofs::InitParts::statements_first), unfolding(crate::specs::Counts::init_nodes))]
fn function_inits(function: &Function, room: u64) -> u64
    ensures { result ≡ room - init_cells function.now }
{
    match &function.body {
        None => room,
        Some(statements) => {
            let mut left = room;
            for next in statements.as_slice() {
                left = inits(next, left);
            }
            left
        }
    }
}

/// The cells that the initialisers of all functions fill, those that are filled up too.
#[tactic(auto, using(crate::proofs::InitParts::functions_first), unfolding(crate::specs::Counts::function_nodes))]
pub fn all_inits(functions: &[Function], room: u64) -> u64
    ensures { result ≡ room - sum_by init_cells functions.now }
{
    let mut left = room;
    for next in functions {
        left = function_inits(next, left);
    }
    left
}
