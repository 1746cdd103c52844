//! Statements that begin, and that go on at a value.

ghost use Rattle.std.specs.Prelude.{◌≡◌, ◌+◌, ◌<◌, ◌≤◌, cond, length};
ghost use Rattle.step_meaning.specs.Names.{truth as is_true};
ghost use Rattle.step_meaning.specs.State.{designated as is_designated};
ghost use Rattle.step_meaning.specs.Statements.{Broken};
ghost use Rattle.run_turns.specs.Pending as pending;
ghost use Rattle.run_turns.specs.Turns.{answering, concluded, executed, giving, left_by, pushed, ready};
ghost use Rattle.run_state.specs.Machine.{configuration_of, fixed_of};

use run_state::{Left, Machine, Operand, Stage, Told, Work, designated, truth};
use sqlite_items::Boxed;
use step_meaning::{CType, Expr, Stmt, Value, Variable};

/// `return`, whose expression begins if it has one.
fn answer<'a>(machine: &mut Machine<'a>, s: &'a Stmt, e: &'a Option<Expr>)
    requires free { length machine.old.work.0 + 2 ≤ machine.old.work.1 }
    requires returns { s.now ≡ Stmt.Return e.now }
    ensures fixed { fixed_of machine.new ≡ fixed_of machine.old }
    ensures turned { configuration_of machine.new ≡ answering e.now (configuration_of machine.old) }
{
    match e {
        None => machine.told = Told::Left(Left::Returned(None)),
        Some(e) => machine.push_two(Work::Statement(Stage::Conclude, s), Work::Evaluate(e)),
    }
}

/// Begins a statement (C11 6.8).
#[tactic(auto, using(crate::proofs::StatementViews::at_statements))]
pub fn execute<'a>(machine: &mut Machine<'a>, s: &'a Stmt)
    requires free { length machine.old.work.0 + 2 ≤ machine.old.work.1 }
    ensures fixed { fixed_of machine.new ≡ fixed_of machine.old }
    ensures turned { configuration_of machine.new ≡ executed s.now (configuration_of machine.old) }
{
    match s {
        Stmt::Empty => {}
        Stmt::Eval(e) => machine.push_two(Work::Ignore, Work::Evaluate(e)),
        Stmt::Init(_, _, _, e) => {
            machine.push_two(Work::Statement(Stage::Conclude, s), Work::Evaluate(e));
        }
        Stmt::Block(_) => machine.work.push(Work::Statement(Stage::Rest(0), s)),
        Stmt::If(e, _, _) => {
            machine.push_two(Work::Statement(Stage::Conclude, s), Work::Evaluate(e));
        }
        Stmt::While(_, _) => machine.work.push(Work::Statement(Stage::Again, s)),
        Stmt::Do(_, _) => machine.work.push(Work::Statement(Stage::Again, s)),
        Stmt::For(_, _, _) => machine.work.push(Work::Statement(Stage::Again, s)),
        Stmt::Break => machine.told = Told::Left(Left::Broken),
        Stmt::Continue => machine.told = Told::Left(Left::Continued),
        Stmt::Return(e) => answer(machine, s, e),
        Stmt::Ghost(_) => machine.work.push(Work::Statement(Stage::Execute, s)),
        Stmt::Assert(_, _, _) => machine.work.push(Work::Statement(Stage::Execute, s)),
    }
}

/// The cell of a local's initialiser takes the value (C11 6.7.9).
fn initialise<'a>(machine: &mut Machine<'a>, x: Variable, offset: u32, ctype: &'a CType, v: Value)
    requires free { length machine.old.work.0 + 2 ≤ machine.old.work.1 }
    ensures fixed { fixed_of machine.new ≡ fixed_of machine.old }
    ensures turned { configuration_of machine.new ≡ pushed (pending.Operate (pending.Store ctype.now (is_designated machine.old.activation x offset))) (pushed pending.Ignore (giving v (configuration_of machine.old))) }
{
    let place = designated(machine.activation, x, offset);
    machine.push_two(Work::Ignore, Work::Operate(Operand::Store(ctype, place)));
    machine.told = Told::Gave(v);
}

/// The branch of `if` that a condition chooses.
fn branch<'a>(v: Value, first: &'a Boxed<Stmt>, second: &'a Boxed<Stmt>) -> &'a Stmt
    ensures { result.now ≡ cond (is_true v) first.now second.now }
{
    if truth(v) { first.get() } else { second.get() }
}

/// `if` at the value of its condition (C11 6.8.4.1).
fn conclude_if<'a>(
    machine: &mut Machine<'a>,
    v: Value,
    first: &'a Boxed<Stmt>,
    second: &'a Boxed<Stmt>,
)
    requires free { length machine.old.work.0 < machine.old.work.1 }
    ensures fixed { fixed_of machine.new ≡ fixed_of machine.old }
    ensures turned { configuration_of machine.new ≡ pushed (pending.Execute (cond (is_true v) first.now second.now)) (ready (configuration_of machine.old)) }
{
    machine
        .work
        .push(Work::Statement(Stage::Execute, branch(v, first, second)));
    machine.told = Told::Left(Left::Next);
}

/// `while` at the value of its condition (C11 6.8.5.1).
fn conclude_while<'a>(machine: &mut Machine<'a>, v: Value, body: &'a Boxed<Stmt>)
    requires free { length machine.old.work.0 < machine.old.work.1 }
    ensures fixed { fixed_of machine.new ≡ fixed_of machine.old }
    ensures turned { configuration_of machine.new ≡ cond (is_true v) (pushed (pending.Execute body.now) (ready (configuration_of machine.old))) (left_by Broken (configuration_of machine.old)) }
{
    if truth(v) {
        machine
            .work
            .push(Work::Statement(Stage::Execute, body.get()));
        machine.told = Told::Left(Left::Next);
        return;
    }
    machine.told = Told::Left(Left::Broken);
}

/// `do` at the value of its condition (C11 6.8.5.2).
fn conclude_do(machine: &mut Machine<'_>, v: Value)
    ensures fixed { fixed_of machine.new ≡ fixed_of machine.old }
    ensures turned { configuration_of machine.new ≡ cond (is_true v) (ready (configuration_of machine.old)) (left_by Broken (configuration_of machine.old)) }
{
    if truth(v) {
        machine.told = Told::Left(Left::Next);
        return;
    }
    machine.told = Told::Left(Left::Broken);
}

/// `for` at the value of its condition (C11 6.8.5.3).
fn conclude_for<'a>(machine: &mut Machine<'a>, s: &'a Stmt, v: Value, body: &'a Boxed<Stmt>)
    requires free { length machine.old.work.0 + 2 ≤ machine.old.work.1 }
    ensures fixed { fixed_of machine.new ≡ fixed_of machine.old }
    ensures turned { configuration_of machine.new ≡ cond (is_true v) (pushed (pending.Execute body.now) (pushed (pending.Pass (pending.TurnEnd s.now)) (ready (configuration_of machine.old)))) (left_by Broken (configuration_of machine.old)) }
{
    if truth(v) {
        machine.push_two(
            Work::Statement(Stage::TurnEnd, s),
            Work::Statement(Stage::Execute, body.get()),
        );
        machine.told = Told::Left(Left::Next);
        return;
    }
    machine.told = Told::Left(Left::Broken);
}

/// What was told is used up.
pub(crate) fn make_ready(machine: &mut Machine<'_>)
    ensures fixed { fixed_of machine.new ≡ fixed_of machine.old }
    ensures turned { configuration_of machine.new ≡ ready (configuration_of machine.old) }
{
    machine.told = Told::Left(Left::Next);
}

/// Goes on with a statement at the value of its expression.
#[tactic(auto, using(crate::proofs::StatementViews::at_conclusions))]
pub fn conclude<'a>(machine: &mut Machine<'a>, s: &'a Stmt, v: Value)
    requires free { length machine.old.work.0 + 2 ≤ machine.old.work.1 }
    ensures fixed { fixed_of machine.new ≡ fixed_of machine.old }
    ensures turned { configuration_of machine.new ≡ concluded s.now v (configuration_of machine.old) }
{
    match s {
        Stmt::Empty => make_ready(machine),
        Stmt::Eval(_) => make_ready(machine),
        Stmt::Init(x, offset, ctype, _) => initialise(machine, *x, *offset, ctype, v),
        Stmt::Block(_) => make_ready(machine),
        Stmt::If(_, first, second) => conclude_if(machine, v, first, second),
        Stmt::While(_, body) => conclude_while(machine, v, body),
        Stmt::Do(_, _) => conclude_do(machine, v),
        Stmt::For(_, _, body) => conclude_for(machine, s, v, body),
        Stmt::Break => make_ready(machine),
        Stmt::Continue => make_ready(machine),
        Stmt::Return(_) => machine.told = Told::Left(Left::Returned(Some(v))),
        Stmt::Ghost(_) => make_ready(machine),
        Stmt::Assert(_, _, _) => make_ready(machine),
    }
}
