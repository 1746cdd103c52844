//! One turn of the machine.

ghost use Rattle.std.specs.Prelude.{◌≡◌, ◌+◌, ◌≤◌, is_some, length};
ghost use Rattle.run_turns.specs.Turns.{turn_at};
ghost use Rattle.run_state.specs.Machine.{configuration_of, fixed_of, pending_of, statement_of, told_of};
ghost use Rattle.run_steps.specs.Turning.{MayTurn, fixed_after};

use crate::endings::{block, body, halted, left, looped, turn_ended};
use crate::ready::{arguments, evaluated, executed, located};
use crate::values::{
    accessed, argued, concluded, designated, ignored, operated, selected, written,
};
use run_state::{Machine, Stage, Work};
use step_meaning::Stmt;

/// A statement at a stage.
fn statement<'a>(machine: &mut Machine<'a>, stage: Stage, s: &'a Stmt) -> bool
    requires free { length machine.old.work.0 + 3 ≤ machine.old.work.1 }
    ensures fixed { fixed_of machine.new ≡ fixed_after (statement_of stage s.now) result (fixed_of machine.old) }
    ensures made { result ≡ is_some (turn_at machine.old.core.now (statement_of stage s.now) (told_of machine.old.told) (configuration_of machine.old)).step }
    ensures turned { configuration_of machine.new ≡ (turn_at machine.old.core.now (statement_of stage s.now) (told_of machine.old.told) (configuration_of machine.old)).after }
{
    match stage {
        Stage::Execute => executed(machine, s),
        Stage::Conclude => concluded(machine, s),
        Stage::Rest(i) => block(machine, s, i),
        Stage::Again => looped(machine, s),
        Stage::TurnEnd => turn_ended(machine, s),
    }
}

/// Goes on with the part that was taken off the stack, at what was told, and answers whether that made a step. Input and the start of an activation aren't made here: they stay as they are.
pub fn turn<'a>(machine: &mut Machine<'a>, part: Work<'a>) -> bool
    requires free { length machine.old.work.0 + 3 ≤ machine.old.work.1 }
    requires may { MayTurn machine.old (pending_of machine.old.core.now part) (told_of machine.old.told) }
    ensures fixed { fixed_of machine.new ≡ fixed_after (pending_of machine.old.core.now part.entry) result (fixed_of machine.old) }
    ensures made { result ≡ is_some (turn_at machine.old.core.now (pending_of machine.old.core.now part.entry) (told_of machine.old.told) (configuration_of machine.old)).step }
    ensures turned { configuration_of machine.new ≡ (turn_at machine.old.core.now (pending_of machine.old.core.now part.entry) (told_of machine.old.told) (configuration_of machine.old)).after }
{
    match part {
        Work::Evaluate(e) => evaluated(machine, e),
        Work::Locate(p) => located(machine, p),
        Work::Statement(stage, s) => statement(machine, stage, s),
        Work::Body(function, i) => body(machine, function, i),
        Work::Operate(operand) => operated(machine, operand),
        Work::Accessed(entry) => accessed(machine, entry),
        Work::Select(selection) => selected(machine, selection),
        Work::Designate(designation) => designated(machine, designation),
        Work::Ignore => ignored(machine),
        Work::Input => false,
        Work::Output => written(machine),
        Work::Arguments(function, es, n) => arguments(machine, function, es, n),
        Work::Argument(function, es, n) => argued(machine, function, es, n),
        Work::Enter(_, _) => false,
        Work::Leave(function, ctype) => left(machine, function, ctype),
        Work::Halt(fault) => halted(machine, fault),
        Work::Over(_) => false,
    }
}
