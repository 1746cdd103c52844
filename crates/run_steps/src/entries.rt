//! The start of an activation (C11 6.5.2.2, 6.9.1).

ghost use Rattle.std.specs.Prelude.{◌≡◌, ◌+◌, ◌≤◌, length};
ghost use Rattle.run_turns.specs.Turns.{entered};
ghost use Rattle.run_state.specs.Machine.{body_of, configuration_of, fixed_of};
ghost use Rattle.run_steps.specs.Turning.{MayEnter, begun};

use run_state::{Left, Machine, Told, Waiting, Work};
use step_meaning::Function;

/// The function with this number begins to run with the top n arguments: its variables, ghost variables and registers begin.
#[tactic(auto, using(crate::proofs::Beginnings::unset_sizes))]
pub fn enter<'a>(machine: &mut Machine<'a>, number: u32, function: &'a Function, n: usize)
    requires free { length machine.old.work.0 + 2 ≤ machine.old.work.1 }
    requires may { MayEnter machine.old function.now n }
    ensures fixed { fixed_of machine.new ≡ begun (length function.now.registers) (fixed_of machine.old) }
    ensures turned { configuration_of machine.new ≡ entered machine.old.core.now number function.now (body_of machine.old.core.now number) n (configuration_of machine.old) }
{
    let layouts = machine.core.layouts.as_slice();
    machine
        .memory
        .open(layouts, function, machine.made, machine.arguments.top(n));
    machine.ghosts.open_ghosts(layouts, function, machine.made);
    machine.registers.open(function.registers.as_slice());
    machine.arguments.drop_top(n);
    machine.callers.push(Waiting {
        function: machine.function,
        activation: machine.activation,
    });
    machine.function = number;
    machine.activation = machine.made;
    machine.made += 1;
    machine.told = Told::Left(Left::Next);
    machine.push_two(Work::Leave(number, &function.result), Work::Body(number, 0));
}
