//! Loops: a turn that begins, what ends it, and the way in which a loop is left (C11 6.8.5, 6.8.6).

ghost use Rattle.std.specs.Prelude.{◌≡◌, ◌+◌, ◌≤◌, is_some, length, true};
ghost use Rattle.run_turns.specs.Turns.{at_turn_end, ending, looped, pushed, ready, stepping, turning};
ghost use Rattle.run_turns.specs.Pending as pending;
ghost use Rattle.run_state.specs.Machine.{completion_of, configuration_of, fixed_of};
ghost use Rattle.run_arms.specs.Loops.{for_turning};

use crate::statements::make_ready;
use run_state::{Left, Machine, Stage, Told, Work};
use sqlite_items::Boxed;
use step_meaning::{Expr, Stmt};

/// The condition of a loop comes.
fn test<'a>(machine: &mut Machine<'a>, s: &'a Stmt, e: &'a Expr)
    requires free { length machine.old.work.0 + 2 ≤ machine.old.work.1 }
    ensures fixed { fixed_of machine.new ≡ fixed_of machine.old }
    ensures turned { configuration_of machine.new ≡ pushed (pending.Evaluate e.now) (pushed (pending.Conclude s.now) (configuration_of machine.old)) }
{
    machine.push_two(Work::Statement(Stage::Conclude, s), Work::Evaluate(e));
}

/// The body of a loop comes, and then what ends the turn.
fn body_first<'a>(machine: &mut Machine<'a>, s: &'a Stmt, body: &'a Boxed<Stmt>)
    requires free { length machine.old.work.0 + 2 ≤ machine.old.work.1 }
    ensures fixed { fixed_of machine.new ≡ fixed_of machine.old }
    ensures turned { configuration_of machine.new ≡ pushed (pending.Execute body.now) (pushed (pending.Pass (pending.TurnEnd s.now)) (configuration_of machine.old)) }
{
    machine.push_two(
        Work::Statement(Stage::TurnEnd, s),
        Work::Statement(Stage::Execute, body.get()),
    );
}

/// The turn of a `for` begins.
fn begin_for<'a>(
    machine: &mut Machine<'a>,
    s: &'a Stmt,
    condition: &'a Option<Expr>,
    body: &'a Boxed<Stmt>,
)
    requires free { length machine.old.work.0 + 2 ≤ machine.old.work.1 }
    ensures fixed { fixed_of machine.new ≡ fixed_of machine.old }
    ensures turned { configuration_of machine.new ≡ for_turning condition.now s.now body.now (configuration_of machine.old) }
{
    match condition {
        None => body_first(machine, s, body),
        Some(e) => test(machine, s, e),
    }
}

/// A statement that is no loop comes.
fn whole<'a>(machine: &mut Machine<'a>, s: &'a Stmt)
    requires free { length machine.old.work.0 + 2 ≤ machine.old.work.1 }
    ensures fixed { fixed_of machine.new ≡ fixed_of machine.old }
    ensures turned { configuration_of machine.new ≡ pushed (pending.Execute s.now) (configuration_of machine.old) }
{
    machine.work.push(Work::Statement(Stage::Execute, s));
}

/// Begins the turn of a loop.
#[tactic(auto, using(crate::proofs::StatementViews::at_turns))]
fn begin_turn<'a>(machine: &mut Machine<'a>, s: &'a Stmt)
    requires free { length machine.old.work.0 + 2 ≤ machine.old.work.1 }
    ensures fixed { fixed_of machine.new ≡ fixed_of machine.old }
    ensures turned { configuration_of machine.new ≡ turning s.now (configuration_of machine.old) }
{
    match s {
        Stmt::Empty => whole(machine, s),
        Stmt::Eval(_) => whole(machine, s),
        Stmt::Init(_, _, _, _) => whole(machine, s),
        Stmt::Block(_) => whole(machine, s),
        Stmt::If(_, _, _) => whole(machine, s),
        Stmt::While(e, _) => test(machine, s, e),
        Stmt::Do(body, _) => body_first(machine, s, body),
        Stmt::For(condition, _, body) => begin_for(machine, s, condition, body),
        Stmt::Break => whole(machine, s),
        Stmt::Continue => whole(machine, s),
        Stmt::Return(_) => whole(machine, s),
        Stmt::Ghost(_) => whole(machine, s),
        Stmt::Assert(_, _, _) => whole(machine, s),
    }
}

/// Leaves a loop, or begins its next turn, and answers whether it made a step, which the next turn is.
pub fn again<'a>(machine: &mut Machine<'a>, s: &'a Stmt, l: Left) -> bool
    requires free { length machine.old.work.0 + 3 ≤ machine.old.work.1 }
    ensures fixed { fixed_of machine.new ≡ fixed_of machine.old }
    ensures made { result ≡ is_some (looped s.now (completion_of l) (configuration_of machine.old)).step }
    ensures turned { configuration_of machine.new ≡ (looped s.now (completion_of l) (configuration_of machine.old)).after }
{
    match l {
        Left::Next => next_turn(machine, s),
        Left::Continued => next_turn(machine, s),
        Left::Broken => {
            machine.told = Told::Left(Left::Next);
            false
        }
        Left::Returned(v) => {
            machine.told = Told::Left(Left::Returned(v));
            false
        }
    }
}

/// The next turn of a loop begins, which is a step.
fn next_turn<'a>(machine: &mut Machine<'a>, s: &'a Stmt) -> bool
    requires free { length machine.old.work.0 + 3 ≤ machine.old.work.1 }
    ensures fixed { fixed_of machine.new ≡ fixed_of machine.old }
    ensures made { result ≡ true }
    ensures turned { configuration_of machine.new ≡ turning s.now (pushed (pending.Pass (pending.Again s.now)) (ready (configuration_of machine.old))) }
{
    machine.work.push(Work::Statement(Stage::Again, s));
    machine.told = Told::Left(Left::Next);
    begin_turn(machine, s);
    true
}

/// The step of a `for` comes, if it has one.
fn step<'a>(machine: &mut Machine<'a>, e: &'a Option<Expr>)
    requires free { length machine.old.work.0 + 2 ≤ machine.old.work.1 }
    ensures fixed { fixed_of machine.new ≡ fixed_of machine.old }
    ensures turned { configuration_of machine.new ≡ stepping e.now (configuration_of machine.old) }
{
    machine.told = Told::Left(Left::Next);
    match e {
        None => {}
        Some(e) => machine.push_two(Work::Ignore, Work::Evaluate(e)),
    }
}

/// The condition of a `do` comes.
fn test_after<'a>(machine: &mut Machine<'a>, s: &'a Stmt, e: &'a Expr)
    requires free { length machine.old.work.0 + 2 ≤ machine.old.work.1 }
    ensures fixed { fixed_of machine.new ≡ fixed_of machine.old }
    ensures turned { configuration_of machine.new ≡ pushed (pending.Evaluate e.now) (pushed (pending.Conclude s.now) (ready (configuration_of machine.old))) }
{
    machine.told = Told::Left(Left::Next);
    test(machine, s, e);
}

/// What ends a turn of a loop, after its body.
#[tactic(auto, using(crate::proofs::StatementViews::at_ends))]
fn end_turn<'a>(machine: &mut Machine<'a>, s: &'a Stmt)
    requires free { length machine.old.work.0 + 2 ≤ machine.old.work.1 }
    ensures fixed { fixed_of machine.new ≡ fixed_of machine.old }
    ensures turned { configuration_of machine.new ≡ ending s.now (configuration_of machine.old) }
{
    match s {
        Stmt::Empty => make_ready(machine),
        Stmt::Eval(_) => make_ready(machine),
        Stmt::Init(_, _, _, _) => make_ready(machine),
        Stmt::Block(_) => make_ready(machine),
        Stmt::If(_, _, _) => make_ready(machine),
        Stmt::While(_, _) => make_ready(machine),
        Stmt::Do(_, e) => test_after(machine, s, e),
        Stmt::For(_, e, _) => step(machine, e),
        Stmt::Break => make_ready(machine),
        Stmt::Continue => make_ready(machine),
        Stmt::Return(_) => make_ready(machine),
        Stmt::Ghost(_) => make_ready(machine),
        Stmt::Assert(_, _, _) => make_ready(machine),
    }
}

/// Goes on after the body of a loop, which was left in this way.
pub fn after_body<'a>(machine: &mut Machine<'a>, s: &'a Stmt, l: Left)
    requires free { length machine.old.work.0 + 2 ≤ machine.old.work.1 }
    ensures fixed { fixed_of machine.new ≡ fixed_of machine.old }
    ensures turned { configuration_of machine.new ≡ at_turn_end (ending s.now (configuration_of machine.old)) (completion_of l) (configuration_of machine.old) }
{
    match l {
        Left::Next => end_turn(machine, s),
        Left::Continued => end_turn(machine, s),
        Left::Broken => machine.told = Told::Left(Left::Broken),
        Left::Returned(v) => machine.told = Told::Left(Left::Returned(v)),
    }
}
