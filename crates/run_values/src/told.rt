//! What an operation tells: its result, or a fault that is due.

ghost use Rattle.std.specs.Prelude.{◌≡◌, ◌<◌, length};
ghost use Rattle.run_turns.specs.Turns.{decided, designated_by, finished, holding, pointing};
ghost use Rattle.run_state.specs.Machine.{configuration_of, fixed_of};

use run_state::{Located, Machine, Told, truth_value};
use step_meaning::{Cell, RunFault, Value};

/// Tells the result of an operator on integers.
pub fn finish(machine: &mut Machine<'_>, outcome: Result<i128, RunFault>)
    requires free { length machine.old.work.0 < machine.old.work.1 }
    ensures fixed { fixed_of machine.new ≡ fixed_of machine.old }
    ensures turned { configuration_of machine.new ≡ finished outcome (configuration_of machine.old) }
{
    match outcome {
        Ok(n) => machine.told = Told::Gave(Value::Int(n)),
        Err(fault) => machine.halt(fault),
    }
}

/// Tells the result of a comparison.
pub fn decide(machine: &mut Machine<'_>, outcome: Result<bool, RunFault>)
    requires free { length machine.old.work.0 < machine.old.work.1 }
    ensures fixed { fixed_of machine.new ≡ fixed_of machine.old }
    ensures turned { configuration_of machine.new ≡ decided outcome (configuration_of machine.old) }
{
    match outcome {
        Ok(holds) => machine.told = Told::Gave(truth_value(holds)),
        Err(fault) => machine.halt(fault),
    }
}

/// Tells the result of pointer arithmetic.
pub fn point(machine: &mut Machine<'_>, outcome: Result<Value, RunFault>)
    requires free { length machine.old.work.0 < machine.old.work.1 }
    ensures fixed { fixed_of machine.new ≡ fixed_of machine.old }
    ensures turned { configuration_of machine.new ≡ pointing outcome (configuration_of machine.old) }
{
    match outcome {
        Ok(p) => machine.told = Told::Gave(p),
        Err(fault) => machine.halt(fault),
    }
}

/// Tells what a computed pointer designates.
pub fn designate(machine: &mut Machine<'_>, outcome: Result<Value, RunFault>)
    requires free { length machine.old.work.0 < machine.old.work.1 }
    ensures fixed { fixed_of machine.new ≡ fixed_of machine.old }
    ensures turned { configuration_of machine.new ≡ designated_by outcome (configuration_of machine.old) }
{
    match outcome {
        Ok(p) => machine.told = Told::Found(Located::At(p)),
        Err(fault) => machine.halt(fault),
    }
}

/// Tells the value in a cell that a read reaches.
pub fn hold(machine: &mut Machine<'_>, cell: Option<Cell>)
    requires free { length machine.old.work.0 < machine.old.work.1 }
    ensures fixed { fixed_of machine.new ≡ fixed_of machine.old }
    ensures turned { configuration_of machine.new ≡ holding cell (configuration_of machine.old) }
{
    match cell {
        None => machine.halt(RunFault::Invalid),
        Some(Cell::Nothing) => machine.halt(RunFault::Uninit),
        Some(Cell::Holds(v)) => machine.told = Told::Gave(v),
    }
}
