//! How much room statements need, and a program.

ghost use Rattle.std.specs.Prelude.{◌≡◌, ◌+◌, ◌≤◌, ℕ, drop, length, max};
ghost use Rattle.std.specs.List.{AllByRecursion};
ghost use Rattle.run_turns.specs.Room as room;
ghost use Rattle.run_start.specs.Heights.{capped, height_of_body};

use crate::depths::{depth, greater, plus};
use sqlite_items::Items;
use step_meaning::{Core, Expr, Function, Stmt};

/// The room of an expression that may be left out.
fn depth_if_any(e: &Option<Expr>) -> usize
    ensures { result ≡ capped (room.depth_if_any e.now) }
{
    match e {
        None => 3,
        Some(e) => plus(depth(e), 1),
    }
}

/// The room of a statement.
#[cycle(heights)]
#[tactic(auto, using(crate::proofs::HeightForms::height_forms))]
fn height(s: &Stmt) -> usize
    ensures { result ≡ capped (room.height s.now) }
{
    match s {
        Stmt::Empty | Stmt::Break | Stmt::Continue | Stmt::Ghost(_) | Stmt::Assert(_, _, _) => 3,
        Stmt::Eval(e) => plus(depth(e), 1),
        Stmt::Init(_, _, _, e) => greater(plus(depth(e), 1), 4),
        Stmt::Block(items) => height_of_all(items.as_slice()),
        Stmt::If(e, then, or) => greater(
            plus(depth(e), 1),
            greater(height(then.get()), height(or.get())),
        ),
        Stmt::While(e, body) => plus(greater(depth(e), height(body.get())), 2),
        Stmt::Do(body, e) => plus(greater(depth(e), height(body.get())), 2),
        Stmt::For(test, step, body) => plus(
            greater(
                greater(depth_if_any(test), depth_if_any(step)),
                height(body.get()),
            ),
            2,
        ),
        Stmt::Return(e) => depth_if_any(e),
    }
}

/// The room of statements one after the other.
#[cycle(heights)]
fn height_of_all(statements: &[Stmt]) -> usize
    ensures { result ≡ capped (room.height_all statements.now) }
{
    let mut left = statements.len();
    let mut all = 3;
    while left > 0 {
        left -= 1;
        all = greater(plus(height(&statements[left]), 1), all);
    }
    all
}

/// The room of a function's body.
fn height_of_body(function: &Function) -> usize
    ensures { result ≡ capped (height_of_body function.now) }
{
    match &function.body {
        None => 3,
        Some(statements) => height_of_all(statements.as_slice()),
    }
}

/// As much room as the highest body of these functions has.
pub fn greatest_height(functions: &[Function]) -> usize
    ensures least { 3 ≤ result }
    ensures bodies { AllByRecursion (λ f. capped (height_of_body f) ≤ result) functions.now }
{
    let mut greatest = 3;
    for function in functions {
        greatest = greater(greatest, height_of_body(function));
    }
    greatest
}

/// As many registers as the function has that has most.
pub fn most_registers(functions: &[Function]) -> usize
    ensures { AllByRecursion (λ f. length f.registers ≤ result) functions.now }
{
    let mut most = 0;
    for function in functions {
        most = greater(most, function.registers.len());
    }
    most
}
