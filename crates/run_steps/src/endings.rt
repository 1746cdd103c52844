//! Parts that wait until a statement is left, and faults that are due.

ghost use Rattle.std.specs.Prelude.{◌≡◌, ◌+◌, ◌≤◌, drop, is_some, length};
ghost use Rattle.run_turns.specs.Pending as pending;
ghost use Rattle.run_turns.specs.Turns.{turn_at};
ghost use Rattle.run_state.specs.Machine.{block_items, body_of, configuration_of, fixed_of, told_of};
ghost use Rattle.run_arms.specs.Calls.{ended_where};
ghost use Rattle.run_steps.specs.Turning.{MayTurn};

use run_arms::{after_body, again, in_block, in_body, leave};
use run_state::{Machine, Told, Work};
use step_meaning::{CType, RunFault, Stmt};

/// The statements of a block from this one on.
pub fn block<'a>(machine: &mut Machine<'a>, s: &'a Stmt, i: usize) -> bool
    requires free { length machine.old.work.0 + 3 ≤ machine.old.work.1 }
    ensures fixed { fixed_of machine.new ≡ fixed_of machine.old }
    ensures made { result ≡ is_some (turn_at machine.old.core.now (pending.Pass (pending.Rest (drop i (block_items s.now)))) (told_of machine.old.told) (configuration_of machine.old)).step }
    ensures turned { configuration_of machine.new ≡ (turn_at machine.old.core.now (pending.Pass (pending.Rest (drop i (block_items s.now)))) (told_of machine.old.told) (configuration_of machine.old)).after }
{
    match machine.told {
        Told::Left(l) => {
            in_block(machine, s, i, l);
            false
        }
        Told::Gave(_) => false,
        Told::Found(_) => false,
    }
}

/// The statements of the body of a function from this one on.
pub fn body(machine: &mut Machine<'_>, function: u32, i: usize) -> bool
    requires free { length machine.old.work.0 + 3 ≤ machine.old.work.1 }
    ensures fixed { fixed_of machine.new ≡ fixed_of machine.old }
    ensures made { result ≡ is_some (turn_at machine.old.core.now (pending.Pass (pending.Rest (drop i (body_of machine.old.core.now function)))) (told_of machine.old.told) (configuration_of machine.old)).step }
    ensures turned { configuration_of machine.new ≡ (turn_at machine.old.core.now (pending.Pass (pending.Rest (drop i (body_of machine.old.core.now function)))) (told_of machine.old.told) (configuration_of machine.old)).after }
{
    match machine.told {
        Told::Left(l) => {
            in_body(machine, function, i, l);
            false
        }
        Told::Gave(_) => false,
        Told::Found(_) => false,
    }
}

/// A loop, at its start or after a turn.
pub fn looped<'a>(machine: &mut Machine<'a>, s: &'a Stmt) -> bool
    requires free { length machine.old.work.0 + 3 ≤ machine.old.work.1 }
    ensures fixed { fixed_of machine.new ≡ fixed_of machine.old }
    ensures made { result ≡ is_some (turn_at machine.old.core.now (pending.Pass (pending.Again s.now)) (told_of machine.old.told) (configuration_of machine.old)).step }
    ensures turned { configuration_of machine.new ≡ (turn_at machine.old.core.now (pending.Pass (pending.Again s.now)) (told_of machine.old.told) (configuration_of machine.old)).after }
{
    match machine.told {
        Told::Left(l) => { again(machine, s, l) }
        Told::Gave(_) => false,
        Told::Found(_) => false,
    }
}

/// What ends a turn of a loop.
pub fn turn_ended<'a>(machine: &mut Machine<'a>, s: &'a Stmt) -> bool
    requires free { length machine.old.work.0 + 3 ≤ machine.old.work.1 }
    ensures fixed { fixed_of machine.new ≡ fixed_of machine.old }
    ensures made { result ≡ is_some (turn_at machine.old.core.now (pending.Pass (pending.TurnEnd s.now)) (told_of machine.old.told) (configuration_of machine.old)).step }
    ensures turned { configuration_of machine.new ≡ (turn_at machine.old.core.now (pending.Pass (pending.TurnEnd s.now)) (told_of machine.old.told) (configuration_of machine.old)).after }
{
    match machine.told {
        Told::Left(l) => {
            after_body(machine, s, l);
            false
        }
        Told::Gave(_) => false,
        Told::Found(_) => false,
    }
}

/// The end of an activation.
pub fn left(machine: &mut Machine<'_>, function: u32, ctype: &CType) -> bool
    requires free { length machine.old.work.0 + 3 ≤ machine.old.work.1 }
    requires may { MayTurn machine.old (pending.Leave function ctype.now) (told_of machine.old.told) }
    ensures fixed { fixed_of machine.new ≡ ended_where result (fixed_of machine.old) }
    ensures made { result ≡ is_some (turn_at machine.old.core.now (pending.Leave function ctype.now) (told_of machine.old.told) (configuration_of machine.old)).step }
    ensures turned { configuration_of machine.new ≡ (turn_at machine.old.core.now (pending.Leave function ctype.now) (told_of machine.old.told) (configuration_of machine.old)).after }
{
    match machine.told {
        Told::Left(l) => { leave(machine, function, ctype, l) }
        Told::Gave(_) => false,
        Told::Found(_) => false,
    }
}

/// A fault that is due.
pub fn halted(machine: &mut Machine<'_>, fault: RunFault) -> bool
    requires free { length machine.old.work.0 + 3 ≤ machine.old.work.1 }
    ensures fixed { fixed_of machine.new ≡ fixed_of machine.old }
    ensures made { result ≡ is_some (turn_at machine.old.core.now (pending.Halt fault) (told_of machine.old.told) (configuration_of machine.old)).step }
    ensures turned { configuration_of machine.new ≡ (turn_at machine.old.core.now (pending.Halt fault) (told_of machine.old.told) (configuration_of machine.old)).after }
{
    machine.work.push(Work::Over(fault));
    true
}
