//! `putchar`, and faults that are due, as next steps.

ghost use Rattle.std.specs.Prelude.{◌≡◌, ◌⊎◌, ℕ, ◌+◌, ◌<◌, List, Option, pos};
ghost use Rattle.step_meaning.specs.declared.value.Value.TheVariants as value;
ghost use Rattle.weave_base.specs.Causes.{HasCause};
ghost use Rattle.run_turns.specs.Pending as pending;
ghost use Rattle.run_turns.specs.Turns.{byte_of, pushed};
ghost use Rattle.run_state.specs.Machine.{configuration_of, fixed_of};
ghost use Rattle.run_start.specs.Running.{IsRunning, Runs};
ghost use Rattle.run_check.specs.Advancing.{Advances};
ghost use Rattle.run_check.specs.declared.advance.Advance.TheVariants as advance;

use crate::advance::Advance;
use crate::run::Run;
use run_state::{Told, Work, integer};
use step_meaning::{IntKind, RunFault, Value, convert};
use weave_base::Sink;

/// The byte that is written for a value (C11 7.21.7.3).
fn output_byte(v: Value) -> u8
    ensures { result ≡ byte_of v }
{
    convert(IntKind::UChar, integer(v)) as u8
}

/// What `putchar` gives for the byte that it has written.
fn written(byte: u8) -> Value
    ensures { result ≡ value.Int (pos byte) }
{
    Value::Int(i128::from(byte))
}

/// `putchar` (C11 7.21.7.8).
pub fn write<K: Sink>(run: &mut Run<'_>, out: &mut K) -> Advance
    requires runs { Runs run.old.steps (fixed_of run.old.machine) (pushed pending.Output (configuration_of run.old.machine)) }
    requires few { run.old.steps < 1000000000000 }
    ensures steps { run.new.steps ≡ run.old.steps + 1 }
    ensures fixed { fixed_of run.new.machine ≡ fixed_of run.old.machine }
    ensures cause { HasCause (K.faults out.old) (K.faults out.new) (result ≡ advance.WriteFault) }
    ensures answers { (result ≡ advance.Step) ⊎ (result ≡ advance.WriteFault) }
    ensures after { result ≡ advance.Step → IsRunning run.new.steps run.new.machine }
    ensures advances { (left : Option (List ℕ)) → Advances run.old.machine.memory.chunk_limit run.old.machine.memory.call_limit run.old.machine.core.now (pushed pending.Output (configuration_of run.old.machine)) (configuration_of run.new.machine) left left (K.held out.old) (K.held out.new) result }
{
    run.steps += 1;
    match run.machine.told {
        Told::Gave(v) => {
            let byte = output_byte(v);
            match out.put(&[byte]) {
                Err(_) => Advance::WriteFault,
                Ok(()) => {
                    run.machine.told = Told::Gave(written(byte));
                    Advance::Step
                }
            }
        }
        Told::Found(_) => unreachable!(),
        Told::Left(_) => unreachable!(),
    }
}

/// A fault that is due: its step is the last one.
pub fn halt(run: &mut Run<'_>, fault: RunFault) -> Advance
    requires runs { Runs run.old.steps (fixed_of run.old.machine) (pushed (pending.Halt fault) (configuration_of run.old.machine)) }
    requires few { run.old.steps < 1000000000000 }
    ensures steps { run.new.steps ≡ run.old.steps + 1 }
    ensures fixed { fixed_of run.new.machine ≡ fixed_of run.old.machine }
    ensures halts { result ≡ advance.Fault fault }
    ensures advances { (left held : Option (List ℕ)) → Advances run.old.machine.memory.chunk_limit run.old.machine.memory.call_limit run.old.machine.core.now (pushed (pending.Halt fault) (configuration_of run.old.machine)) (configuration_of run.new.machine) left left held held result }
{
    run.steps += 1;
    run.machine.work.push(Work::Over(fault));
    Advance::Fault(fault)
}
