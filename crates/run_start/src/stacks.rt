//! The stacks of a machine, and its registers. Each step holds what was taken before as a value of any type, so that none lets go of more than it knows.

ghost use Rattle.std.specs.Prelude.{◌≡◌, [], IfOk};
ghost use Rattle.run_start.specs.Rooms.{AreEmpty};

use crate::rooms::Rooms;
use run_state::{Registers, Stack, Waiting, Work};
use std::alloc::{AllocError, Global};
use step_meaning::Value;

/// What a machine has beside its stores.
#[derive(Drop)]
pub struct Stacks<'a> {
    /// What is to be done.
    pub work: Stack<Work<'a>>,
    /// The callers that wait.
    pub callers: Stack<Waiting>,
    /// The arguments evaluated so far.
    pub arguments: Stack<Value>,
    /// The registers of the open activations.
    pub registers: Registers<'a>,
}

/// An empty stack with so much room, beside what is held.
fn then_stack<H: Drop, T>(alloc: Global, held: H, room: usize) -> Result<(H, Stack<T>), AllocError>
    ensures { IfOk result (λ r. (r.0 ≡ held) × (r.1 ≡ ([], room))) }
{
    let stack = Stack::with_room(alloc, room)?;
    Ok((held, stack))
}

/// Registers with so much room, beside what is held.
fn then_registers<'a, H: Drop>(
    alloc: Global,
    held: H,
    room: usize,
    calls: usize,
) -> Result<(H, Registers<'a>), AllocError>
    ensures { IfOk result (λ r. (r.0 ≡ held) × (r.1 ≡ record { activations = []; room = room; calls = calls })) }
{
    let registers = Registers::with_room(alloc, room, calls)?;
    Ok((held, registers))
}

/// Empty stacks with these rooms, and no open activation.
pub fn empty_stacks<'a>(alloc: Global, rooms: Rooms, calls: usize) -> Result<Stacks<'a>, AllocError>
    ensures { IfOk result (AreEmpty rooms calls) }
{
    let work = Stack::with_room(alloc, rooms.work)?;
    let (work, callers) = then_stack(alloc, work, calls)?;
    let (held, arguments) = then_stack(alloc, (work, callers), rooms.work)?;
    let (held, registers) = then_registers(alloc, (held, arguments), rooms.registers, calls)?;
    let ((work, callers), arguments) = held;
    Ok(Stacks {
        work,
        callers,
        arguments,
        registers,
    })
}
