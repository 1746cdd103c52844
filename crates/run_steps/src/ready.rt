//! Parts that wait for nothing.

ghost use Rattle.std.specs.Prelude.{◌≡◌, ◌+◌, ◌≤◌, is_some, length};
ghost use Rattle.run_turns.specs.Pending as pending;
ghost use Rattle.run_turns.specs.Turns.{turn_at};
ghost use Rattle.run_state.specs.Machine.{configuration_of, fixed_of, told_of};

use run_arms::{argue, evaluate, execute, locate};
use run_state::{Left, Machine, Told};
use step_meaning::{Expr, Place_, Stmt};

/// An expression.
pub fn evaluated<'a>(machine: &mut Machine<'a>, e: &'a Expr) -> bool
    requires free { length machine.old.work.0 + 3 ≤ machine.old.work.1 }
    ensures fixed { fixed_of machine.new ≡ fixed_of machine.old }
    ensures made { result ≡ is_some (turn_at machine.old.core.now (pending.Evaluate e.now) (told_of machine.old.told) (configuration_of machine.old)).step }
    ensures turned { configuration_of machine.new ≡ (turn_at machine.old.core.now (pending.Evaluate e.now) (told_of machine.old.told) (configuration_of machine.old)).after }
{
    match machine.told {
        Told::Gave(_) => false,
        Told::Found(_) => false,
        Told::Left(l) => match l {
            Left::Next => {
                machine.told = Told::Left(Left::Next);
                evaluate(machine, e);
                false
            }
            Left::Broken => false,
            Left::Continued => false,
            Left::Returned(_) => false,
        },
    }
}

/// An lvalue.
pub fn located<'a>(machine: &mut Machine<'a>, p: &'a Place_) -> bool
    requires free { length machine.old.work.0 + 3 ≤ machine.old.work.1 }
    ensures fixed { fixed_of machine.new ≡ fixed_of machine.old }
    ensures made { result ≡ is_some (turn_at machine.old.core.now (pending.Locate p.now) (told_of machine.old.told) (configuration_of machine.old)).step }
    ensures turned { configuration_of machine.new ≡ (turn_at machine.old.core.now (pending.Locate p.now) (told_of machine.old.told) (configuration_of machine.old)).after }
{
    match machine.told {
        Told::Gave(_) => false,
        Told::Found(_) => false,
        Told::Left(l) => match l {
            Left::Next => {
                machine.told = Told::Left(Left::Next);
                locate(machine, p);
                false
            }
            Left::Broken => false,
            Left::Continued => false,
            Left::Returned(_) => false,
        },
    }
}

/// A statement.
pub fn executed<'a>(machine: &mut Machine<'a>, s: &'a Stmt) -> bool
    requires free { length machine.old.work.0 + 3 ≤ machine.old.work.1 }
    ensures fixed { fixed_of machine.new ≡ fixed_of machine.old }
    ensures made { result ≡ is_some (turn_at machine.old.core.now (pending.Execute s.now) (told_of machine.old.told) (configuration_of machine.old)).step }
    ensures turned { configuration_of machine.new ≡ (turn_at machine.old.core.now (pending.Execute s.now) (told_of machine.old.told) (configuration_of machine.old)).after }
{
    match machine.told {
        Told::Gave(_) => false,
        Told::Found(_) => false,
        Told::Left(l) => match l {
            Left::Next => {
                machine.told = Told::Left(Left::Next);
                execute(machine, s);
                false
            }
            Left::Broken => false,
            Left::Continued => false,
            Left::Returned(_) => false,
        },
    }
}

/// The arguments of a call.
pub fn arguments<'a>(machine: &mut Machine<'a>, function: u32, es: &'a [Expr], n: usize) -> bool
    requires free { length machine.old.work.0 + 3 ≤ machine.old.work.1 }
    ensures fixed { fixed_of machine.new ≡ fixed_of machine.old }
    ensures made { result ≡ is_some (turn_at machine.old.core.now (pending.Arguments function es.now n) (told_of machine.old.told) (configuration_of machine.old)).step }
    ensures turned { configuration_of machine.new ≡ (turn_at machine.old.core.now (pending.Arguments function es.now n) (told_of machine.old.told) (configuration_of machine.old)).after }
{
    match machine.told {
        Told::Gave(_) => false,
        Told::Found(_) => false,
        Told::Left(l) => match l {
            Left::Next => {
                machine.told = Told::Left(Left::Next);
                argue(machine, function, es, n)
            }
            Left::Broken => false,
            Left::Continued => false,
            Left::Returned(_) => false,
        },
    }
}
