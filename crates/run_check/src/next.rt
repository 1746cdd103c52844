//! The next step, whatever it is.

ghost use Rattle.std.specs.Prelude.{◌≡◌, ℕ, ◌<◌, true, List, Option};
ghost use Rattle.weave_base.specs.Causes.{HasCause};
ghost use Rattle.run_turns.specs.Turns.{pushed};
ghost use Rattle.run_state.specs.Machine.{configuration_of, fixed_of, pending_of};
ghost use Rattle.run_start.specs.Running.{IsRunning, Runs};
ghost use Rattle.run_check.specs.Advancing.{Advances, steps_by};
ghost use Rattle.run_check.specs.Going.{SameProgram, is_asking};
ghost use Rattle.run_check.specs.declared.advance.Advance.TheVariants as advance;

use crate::advance::{Advance, after_step, read};
use crate::allocate::allocate;
use crate::begin::begin;
use crate::output::{halt, write};
use crate::run::{Run, turns};
use run_state::{Operand, Work};
use weave_base::{Sink, Source};

/// The step of a part that asks for more, which was taken off the stack.
fn asked<'a, S: Source, K: Sink>(
    run: &mut Run<'a>,
    calls: u32,
    part: Work<'a>,
    input: &mut S,
    out: &mut K,
) -> Advance
    requires part { is_asking (pending_of run.old.machine.core.now part) ≡ true }
    requires runs { Runs run.old.steps (fixed_of run.old.machine) (pushed (pending_of run.old.machine.core.now part) (configuration_of run.old.machine)) }
    requires few { run.old.steps < 1000000000000 }
    requires calls { calls ≡ run.old.machine.memory.call_limit }
    ensures steps { run.new.steps ≡ steps_by result run.old.steps }
    ensures program { SameProgram (fixed_of run.old.machine) (fixed_of run.new.machine) }
    ensures read { HasCause (S.faults input.old) (S.faults input.new) (result ≡ advance.ReadFault) }
    ensures written { HasCause (K.faults out.old) (K.faults out.new) (result ≡ advance.WriteFault) }
    ensures after { result ≡ advance.Step → IsRunning run.new.steps run.new.machine }
    ensures advances { Advances run.old.machine.memory.chunk_limit run.old.machine.memory.call_limit run.old.machine.core.now (pushed (pending_of run.old.machine.core.now part.entry) (configuration_of run.old.machine)) (configuration_of run.new.machine) (S.left input.old) (S.left input.new) (K.held out.old) (K.held out.new) result }
{
    match part {
        Work::Input => read(run, input),
        Work::Output => write(run, out),
        Work::Enter(number, n) => begin(run, calls, number, n),
        Work::Halt(fault) => halt(run, fault),
        Work::Operate(operand) => match operand {
            Operand::Allocate(ctype) => allocate(run, ctype),
            _ => unreachable!(),
        },
        _ => unreachable!(),
    }
}

/// Goes on to the next step and makes it, within the limits.
pub fn next<'a, S: Source, K: Sink>(
    run: &mut Run<'a>,
    calls: u32,
    input: &mut S,
    out: &mut K,
) -> Advance
    requires runs { IsRunning run.old.steps run.old.machine }
    requires few { run.old.steps < 1000000000000 }
    requires calls { calls ≡ run.old.machine.memory.call_limit }
    ensures steps { run.new.steps ≡ steps_by result run.old.steps }
    ensures program { SameProgram (fixed_of run.old.machine) (fixed_of run.new.machine) }
    ensures read { HasCause (S.faults input.old) (S.faults input.new) (result ≡ advance.ReadFault) }
    ensures written { HasCause (K.faults out.old) (K.faults out.new) (result ≡ advance.WriteFault) }
    ensures after { result ≡ advance.Step → IsRunning run.new.steps run.new.machine }
    ensures advances { Advances run.old.machine.memory.chunk_limit run.old.machine.memory.call_limit run.old.machine.core.now (configuration_of run.old.machine) (configuration_of run.new.machine) (S.left input.old) (S.left input.new) (K.held out.old) (K.held out.new) result }
{
    match turns(run) {
        None => {
            run.steps += 1;
            after_step(run)
        }
        Some(part) => asked(run, calls, part, input, out),
    }
}
