//! A machine on the way to its next step.

ghost use Rattle.std.specs.Prelude.{◌≡◌, ℕ, ◌+◌, ◌<◌, Bool, false, true, IfSome, None};
ghost use Rattle.step_meaning.specs.declared.program.Core.{Core};
ghost use Rattle.run_turns.specs.Turns.{pushed};
ghost use Rattle.run_turns.specs.Weight.{load, weight};
ghost use Rattle.run_state.specs.Machine.{configuration_of, fixed_of, pending_of};
ghost use Rattle.run_start.specs.Running.{IsRunning, Runs};
ghost use Rattle.run_check.specs.Going.{GoesTo, MakesPlain, is_asking};

use run_state::{Machine, Operand, Work};
use run_steps::turn;

/// A machine that has made so many steps.
#[derive(Drop)]
pub struct Run<'a> {
    /// The machine.
    pub machine: Machine<'a>,
    /// How many steps it has made.
    pub steps: u64,
}

/// Whether a part asks for more than the machine has: a byte of the outside, or room.
fn asks(part: Work<'_>) -> bool
    ensures { (q : Core) → result ≡ is_asking (pending_of q part.entry) }
{
    match part {
        Work::Input | Work::Output | Work::Enter(_, _) | Work::Halt(_) => true,
        Work::Operate(operand) => matches!(operand, Operand::Allocate(_)),
        Work::Evaluate(_) => false,
        Work::Locate(_) => false,
        Work::Statement(_, _) => false,
        Work::Body(_, _) => false,
        Work::Accessed(_) => false,
        Work::Select(_) => false,
        Work::Designate(_) => false,
        Work::Ignore => false,
        Work::Arguments(_, _, _) => false,
        Work::Argument(_, _, _) => false,
        Work::Leave(_, _) => false,
        Work::Over(_) => false,
    }
}

/// One turn at a part that was taken off the stack and asks for nothing more, and whether it made a step.
fn turned<'a>(run: &mut Run<'a>, part: Work<'a>) -> bool
    requires part { is_asking (pending_of run.old.machine.core.now part) ≡ false }
    requires runs { Runs run.old.steps (fixed_of run.old.machine) (pushed (pending_of run.old.machine.core.now part) (configuration_of run.old.machine)) }
    requires few { run.old.steps < 1000000000000 }
    ensures steps { run.new.steps ≡ run.old.steps }
    ensures moved { result ≡ false → GoesTo run.old.steps (fixed_of run.old.machine) (fixed_of run.new.machine) (pushed (pending_of run.old.machine.core.now part.entry) (configuration_of run.old.machine)) (configuration_of run.new.machine) }
    ensures falls { result ≡ false → load (configuration_of run.new.machine).work < weight (pending_of run.old.machine.core.now part.entry) + load (configuration_of run.old.machine).work }
    ensures made { result ≡ true → MakesPlain run.old.steps (fixed_of run.old.machine) (fixed_of run.new.machine) (pushed (pending_of run.old.machine.core.now part.entry) (configuration_of run.old.machine)) (configuration_of run.new.machine) }
{
    turn(&mut run.machine, part)
}

/// Turns up to the next step, or to a part that asks for more, which is taken off the stack.
pub fn turns<'a>(run: &mut Run<'a>) -> Option<Work<'a>>
    requires runs { IsRunning run.old.steps run.old.machine }
    requires few { run.old.steps < 1000000000000 }
    ensures steps { run.new.steps ≡ run.old.steps }
    ensures asks { IfSome result (λ p. is_asking (pending_of run.new.machine.core.now p) ≡ true) }
    ensures comes { IfSome result (λ p. GoesTo run.old.steps (fixed_of run.old.machine) (fixed_of run.new.machine) (configuration_of run.old.machine) (pushed (pending_of run.new.machine.core.now p) (configuration_of run.new.machine))) }
    ensures made { result ≡ None → MakesPlain run.old.steps (fixed_of run.old.machine) (fixed_of run.new.machine) (configuration_of run.old.machine) (configuration_of run.new.machine) }
{
    while let Some(part) = run.machine.work.pop() {
        if asks(part) {
            return Some(part);
        }
        if turned(run, part) {
            return None;
        }
    }
    unreachable!()
}
