//! The start of an activation as the next step, within the limits.

ghost use Rattle.std.specs.Prelude.{◌≡◌, ◌⊎◌, ℕ, ◌<◌, List, Option, Some, MatchOption, None, slice_get};
ghost use Rattle.run_turns.specs.Pending as pending;
ghost use Rattle.run_turns.specs.Turns.{pushed};
ghost use Rattle.run_state.specs.Machine.{configuration_of, fixed_of};
ghost use Rattle.run_start.specs.Running.{IsRunning, Runs};
ghost use Rattle.run_check.specs.Advancing.{Advances, steps_by};
ghost use Rattle.run_check.specs.Going.{SameProgram};
ghost use Rattle.run_check.specs.declared.advance.Advance.TheVariants as advance;

use crate::advance::Advance;
use crate::run::Run;
use run_state::Work;
use run_steps::enter;
use step_meaning::{Core, Function};

/// The function with this number.
fn function_at(core: &Core, number: u32) -> Option<&Function>
    ensures { MatchOption result (slice_get core.now.functions number ≡ None) (λ f. slice_get core.now.functions number ≡ Some f.now) }
{
    let functions = core.functions.as_slice();
    let number = number as usize;
    if number < functions.len() {
        Some(&functions[number])
    } else {
        None
    }
}

/// The function with this number begins with the top n arguments, where that opens no more activations than may be open, and its variables have room.
pub fn begin(run: &mut Run<'_>, calls: u32, number: u32, n: usize) -> Advance
    requires runs { Runs run.old.steps (fixed_of run.old.machine) (pushed (pending.Enter number n) (configuration_of run.old.machine)) }
    requires few { run.old.steps < 1000000000000 }
    requires calls { calls ≡ run.old.machine.memory.call_limit }
    ensures steps { run.new.steps ≡ steps_by result run.old.steps }
    ensures program { SameProgram (fixed_of run.old.machine) (fixed_of run.new.machine) }
    ensures answers { (result ≡ advance.Step) ⊎ ((result ≡ advance.CallsFull) ⊎ (result ≡ advance.CellsFull)) }
    ensures after { result ≡ advance.Step → IsRunning run.new.steps run.new.machine }
    ensures advances { (left held : Option (List ℕ)) → Advances run.old.machine.memory.chunk_limit run.old.machine.memory.call_limit run.old.machine.core.now (pushed (pending.Enter number n) (configuration_of run.old.machine)) (configuration_of run.new.machine) left left held held result }
{
    let core = run.machine.core;
    let function = match function_at(core, number) {
        Some(function) => function,
        None => unreachable!(),
    };
    if run.machine.callers.len() >= calls as usize {
        run.machine.work.push(Work::Enter(number, n));
        return Advance::CallsFull;
    }
    let layouts = core.layouts.as_slice();
    if !run
        .machine
        .memory
        .has_room(layouts, function.locals.as_slice())
    {
        run.machine.work.push(Work::Enter(number, n));
        return Advance::CellsFull;
    }
    enter(&mut run.machine, number, function, n);
    run.steps += 1;
    Advance::Step
}
