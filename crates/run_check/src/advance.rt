//! The next step of a machine.

ghost use Rattle.std.specs.Prelude.{◌≡◌, ◌⊎◌, ℕ, ◌+◌, ◌<◌, ℤ, IsTrue, List, Option};
ghost use Rattle.step_meaning.specs.Numbers.{is_in_range};
ghost use Rattle.step_meaning.specs.declared.value.IntKind.TheVariants as kind;
ghost use Rattle.step_meaning.specs.declared.value.Value.TheVariants as value;
ghost use Rattle.weave_base.specs.Causes.{HasCause};
ghost use Rattle.run_turns.specs.Pending as pending;
ghost use Rattle.run_turns.specs.Turns.{pushed};
ghost use Rattle.run_state.specs.Machine.{configuration_of, fixed_of};
ghost use Rattle.run_laws.specs.Ends.{GoesOn};
ghost use Rattle.run_start.specs.Running.{IsRunning, Runs};
ghost use Rattle.run_check.specs.Advancing.{Advances, IsAfter, IsByte, byte_number};
ghost use Rattle.run_check.specs.declared.advance.Advance.TheVariants as advance;

use crate::run::Run;
use run_state::Told;
use step_meaning::{RunFault, Value};
use weave_base::Source;

/// What came of a machine that was to make its next step.
#[derive(Clone, Copy)]
pub enum Advance {
    /// The step was made.
    Step,
    /// It was the last one: `main` has returned this.
    Exit(i32),
    /// It was the last one: there is a fault.
    Fault(RunFault),
    /// It was not made, since it needs more chunks than there are.
    CellsFull,
    /// It was not made, since it opens more activations than may be open.
    CallsFull,
    /// It was attempted, but the source failed.
    ReadFault,
    /// It was attempted, but the sink failed.
    WriteFault,
}

/// The integer of `int` that a value is.
fn exit_value(v: Value) -> i32
    requires given { (z : ℤ) × (v ≡ value.Int z) × IsTrue (is_in_range kind.Int z) }
    ensures { v ≡ value.Int result }
{
    match v {
        Value::Int(z) => z as i32,
        Value::Null => unreachable!(),
        Value::Pointer(_, _) => unreachable!(),
    }
}

/// Whether a step that was made is the last one (C11 5.1.2.2.3).
pub fn after_step(run: &Run<'_>) -> Advance
    requires goes { GoesOn run.now.steps (fixed_of run.now.machine) (configuration_of run.now.machine) }
    ensures after { IsAfter result run.now.steps run.now.machine }
{
    if run.machine.work.len() > 0 {
        return Advance::Step;
    }
    match run.machine.told {
        Told::Gave(v) => Advance::Exit(exit_value(v)),
        Told::Found(_) => unreachable!(),
        Told::Left(_) => unreachable!(),
    }
}

/// What `getchar` gives for the next byte, or at the end of the input.
fn byte_value(byte: Option<u8>) -> Value
    ensures number { result ≡ value.Int (byte_number byte) }
    ensures byte { IsByte byte }
{
    match byte {
        None => Value::Int(-1),
        Some(byte) => Value::Int(i128::from(byte)),
    }
}

/// `getchar` (C11 7.21.7.6).
pub fn read<S: Source>(run: &mut Run<'_>, input: &mut S) -> Advance
    requires runs { Runs run.old.steps (fixed_of run.old.machine) (pushed pending.Input (configuration_of run.old.machine)) }
    requires few { run.old.steps < 1000000000000 }
    ensures steps { run.new.steps ≡ run.old.steps + 1 }
    ensures fixed { fixed_of run.new.machine ≡ fixed_of run.old.machine }
    ensures cause { HasCause (S.faults input.old) (S.faults input.new) (result ≡ advance.ReadFault) }
    ensures answers { (result ≡ advance.Step) ⊎ (result ≡ advance.ReadFault) }
    ensures after { result ≡ advance.Step → IsRunning run.new.steps run.new.machine }
    ensures advances { (held : Option (List ℕ)) → Advances run.old.machine.memory.chunk_limit run.old.machine.memory.call_limit run.old.machine.core.now (pushed pending.Input (configuration_of run.old.machine)) (configuration_of run.new.machine) (S.left input.old) (S.left input.new) held held result }
{
    run.steps += 1;
    match input.next_byte() {
        Err(_) => Advance::ReadFault,
        Ok(byte) => {
            run.machine.told = Told::Gave(byte_value(byte));
            Advance::Step
        }
    }
}
