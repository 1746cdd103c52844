//! The room that a run takes.

ghost use Rattle.std.specs.Prelude.{◌≡◌, ◌*◌, ◌≤◌, IfSome};
ghost use Rattle.run_start.specs.Rooms.{AreRooms};

use crate::heights::{greatest_height, most_registers};
use step_meaning::Core;

/// Room for a run: entries of stacks, and registers.
#[derive(Clone, Copy)]
pub struct Rooms {
    /// The height of the highest body of a function.
    pub height: usize,
    /// That of all activations that may be open, and of one more: the room of what is to be done, and of arguments.
    pub work: usize,
    /// The most registers that a function has.
    pub most_registers: usize,
    /// Those of all activations that may be open.
    pub registers: usize,
}

/// So many times as much, where a word holds it.
fn times(room: usize, count: usize) -> Option<usize>
    ensures { IfSome result (λ product. product ≡ room * count) }
{
    room.checked_mul(count)
}

/// The room that the program needs with so many activations open; none where a word doesn't hold its size, for which there is no memory.
pub fn rooms_for(core: &Core, calls: u32) -> Option<Rooms>
    requires { 1 ≤ calls }
    ensures { IfSome result (AreRooms core.now calls) }
{
    let functions = core.functions.as_slice();
    let height = greatest_height(functions);
    let most_registers = most_registers(functions);
    let work = times(height, calls as usize + 1)?;
    let registers = times(most_registers, calls as usize)?;
    Some(Rooms {
        height,
        work,
        most_registers,
        registers,
    })
}
