//! Blocks and bodies of functions: their statements one by one (C11 6.8.2).

ghost use Rattle.std.specs.Prelude.{◌≡◌, ◌+◌, ◌<◌, ◌≤◌, drop, length};
ghost use Rattle.run_turns.specs.Pending as pending;
ghost use Rattle.run_turns.specs.Turns.{next_of, on_next, ready};
ghost use Rattle.run_state.specs.Machine.{block_items, body_of as statements_of, completion_of, configuration_of, fixed_of, pending_of};

use run_state::{Left, Machine, Stage, Told, Work};
use step_meaning::{Core, Stmt};

/// The statements of a block, and none of another statement.
#[tactic(auto, using(crate::proofs::StatementViews::at_blocks))]
fn block_of(s: &Stmt) -> &[Stmt]
    ensures { result.now ≡ block_items s.now }
{
    match s {
        Stmt::Block(ss) => ss.as_slice(),
        Stmt::Empty => &[],
        Stmt::Eval(_) => &[],
        Stmt::Init(_, _, _, _) => &[],
        Stmt::If(_, _, _) => &[],
        Stmt::While(_, _) => &[],
        Stmt::Do(_, _) => &[],
        Stmt::For(_, _, _) => &[],
        Stmt::Break => &[],
        Stmt::Continue => &[],
        Stmt::Return(_) => &[],
        Stmt::Ghost(_) => &[],
        Stmt::Assert(_, _, _) => &[],
    }
}

/// The statements of the body of a function, and none of one without a body.
fn body_of(core: &Core, function: u32) -> &[Stmt]
    ensures { result.now ≡ statements_of core.now function }
{
    let functions = core.functions.as_slice();
    let index = function as usize;
    if index >= functions.len() {
        return &[];
    }
    match &functions[index].body {
        None => &[],
        Some(ss) => ss.as_slice(),
    }
}

/// The statement with this number comes, and then the ones after it.
fn next<'a>(machine: &mut Machine<'a>, ss: &'a [Stmt], i: usize, rest: Work<'a>)
    requires inside { i < length ss.now }
    requires rest { pending_of machine.old.core.now rest ≡ pending.Pass (pending.Rest (drop (i + 1) ss.now)) }
    requires free { length machine.old.work.0 + 2 ≤ machine.old.work.1 }
    ensures fixed { fixed_of machine.new ≡ fixed_of machine.old }
    ensures turned { configuration_of machine.new ≡ next_of (drop i ss.now) (configuration_of machine.old) }
{
    machine.push_two(rest, Work::Statement(Stage::Execute, &ss[i]));
}

/// Goes on with the statements of a block from this one on.
fn rest_of_block<'a>(machine: &mut Machine<'a>, s: &'a Stmt, i: usize)
    requires free { length machine.old.work.0 + 2 ≤ machine.old.work.1 }
    ensures fixed { fixed_of machine.new ≡ fixed_of machine.old }
    ensures turned { configuration_of machine.new ≡ next_of (drop i (block_items s.now)) (configuration_of machine.old) }
{
    let ss = block_of(s);
    if i < ss.len() {
        next(machine, ss, i, Work::Statement(Stage::Rest(i + 1), s));
    }
}

/// Goes on with the statements of the body of a function from this one on.
fn rest_of_body(machine: &mut Machine<'_>, function: u32, i: usize)
    requires free { length machine.old.work.0 + 2 ≤ machine.old.work.1 }
    ensures fixed { fixed_of machine.new ≡ fixed_of machine.old }
    ensures turned { configuration_of machine.new ≡ next_of (drop i (statements_of machine.old.core.now function)) (configuration_of machine.old) }
{
    let ss = body_of(machine.core, function);
    if i < ss.len() {
        next(machine, ss, i, Work::Body(function, i + 1));
    }
}

/// Goes on after a statement of a block, which was left in this way.
pub fn in_block<'a>(machine: &mut Machine<'a>, s: &'a Stmt, i: usize, l: Left)
    requires free { length machine.old.work.0 + 2 ≤ machine.old.work.1 }
    ensures fixed { fixed_of machine.new ≡ fixed_of machine.old }
    ensures turned { configuration_of machine.new ≡ on_next (next_of (drop i (block_items s.now)) (ready (configuration_of machine.old))) (completion_of l) (configuration_of machine.old) }
{
    machine.told = Told::Left(l);
    match l {
        Left::Next => rest_of_block(machine, s, i),
        Left::Broken => {}
        Left::Continued => {}
        Left::Returned(_) => {}
    }
}

/// Goes on after a statement of the body of a function, which was left in this way.
pub fn in_body(machine: &mut Machine<'_>, function: u32, i: usize, l: Left)
    requires free { length machine.old.work.0 + 2 ≤ machine.old.work.1 }
    ensures fixed { fixed_of machine.new ≡ fixed_of machine.old }
    ensures turned { configuration_of machine.new ≡ on_next (next_of (drop i (statements_of machine.old.core.now function)) (ready (configuration_of machine.old))) (completion_of l) (configuration_of machine.old) }
{
    machine.told = Told::Left(l);
    match l {
        Left::Next => rest_of_body(machine, function, i),
        Left::Broken => {}
        Left::Continued => {}
        Left::Returned(_) => {}
    }
}
