//! The machine before the first step.

ghost use Rattle.std.specs.Prelude.{◌≡◌, ◌<◌, ◌≤◌, ◌↔◌, Err, IfOk, IfSome, length, max};
ghost use Rattle.step_meaning.specs.Runs.{start_ghosts, start_memory};
ghost use Rattle.step_meaning.specs.WellFormed.{IsWellFormed};
ghost use Rattle.run_memory.specs.Storage.{variables_chunks};
ghost use Rattle.run_turns.specs.Turns as turns;
ghost use Rattle.run_state.specs.Machine.{configuration_of, fixed_of};
ghost use Rattle.run_start.specs.Rooms.{AreEmpty, AreRooms, fixed_at};
ghost use Rattle.run_start.specs.Running.{IsRunnable, IsRunning};

use crate::rooms::{Rooms, rooms_for};
use crate::stacks::{Stacks, empty_stacks};
use run_memory::{MakeFault, Store};
use run_state::{Left, Machine, Told, Work};
use std::alloc::Global;
use step_meaning::Core;

/// The ghost variables of file scope.
fn ghosts<'a>(alloc: Global, core: &'a Core, calls: u32) -> Option<Store<'a>>
    requires formed { IsWellFormed core.now }
    ensures made { IfSome result (λ s. s ≡ record { memory = start_ghosts core.now; chunk_limit = max 1 (length core.now.ghosts); call_limit = calls }) }
    ensures few { IfSome result (λ s. length core.now.ghosts ≤ 1048576) }
{
    let count = core.ghosts.len();
    if count > 1_048_576 {
        return None;
    }
    let chunks = (count as u32).max(1);
    Store::make_ghosts(alloc, core, chunks, calls).ok()
}

/// The memory of the program, where it has no more variables of file scope than chunks.
fn memory<'a>(
    alloc: Global,
    core: &'a Core,
    chunks: u32,
    calls: u32,
) -> Result<Store<'a>, MakeFault>
    requires formed { IsWellFormed core.now }
    requires chunks { (1 ≤ chunks) × (chunks ≤ 1048576) }
    ensures made { IfOk result (λ s. s ≡ record { memory = start_memory core.now; chunk_limit = chunks; call_limit = calls }) }
    ensures few { IfOk result (λ s. length core.now.globals ≤ chunks) }
    ensures full { (result ≡ Err MakeFault.GlobalsFull) ↔ (chunks < variables_chunks core.now.layouts core.now.globals) }
{
    if core.globals.len() > chunks as usize {
        return Err(MakeFault::GlobalsFull);
    }
    Store::make(alloc, core, chunks, calls)
}

/// The room of the run, beside what is held.
fn then_rooms<H: Drop>(held: H, core: &Core, calls: u32) -> Result<(H, Rooms), MakeFault>
    requires calls { 1 ≤ calls }
    ensures made { IfOk result (λ r. (r.0 ≡ held) × AreRooms core.now calls r.1) }
    ensures room { result ≡ Err MakeFault.GlobalsFull → ⊥ }
{
    match rooms_for(core, calls) {
        Some(rooms) => Ok((held, rooms)),
        None => Err(MakeFault::Memory),
    }
}

/// The ghost variables of file scope, beside what is held.
fn then_ghosts<'a, H: Drop>(
    alloc: Global,
    held: H,
    core: &'a Core,
    calls: u32,
) -> Result<(H, Store<'a>), MakeFault>
    requires formed { IsWellFormed core.now }
    ensures made { IfOk result (λ r. (r.0 ≡ held) × (r.1 ≡ record { memory = start_ghosts core.now; chunk_limit = max 1 (length core.now.ghosts); call_limit = calls })) }
    ensures room { result ≡ Err MakeFault.GlobalsFull → ⊥ }
{
    match ghosts(alloc, core, calls) {
        Some(ghosts) => Ok((held, ghosts)),
        None => Err(MakeFault::Memory),
    }
}

/// Empty stacks with these rooms, beside what is held.
fn then_stacks<'a, H: Drop>(
    alloc: Global,
    held: H,
    rooms: Rooms,
    calls: u32,
) -> Result<(H, Stacks<'a>), MakeFault>
    ensures made { IfOk result (λ r. (r.0 ≡ held) × AreEmpty rooms calls r.1) }
    ensures room { result ≡ Err MakeFault.GlobalsFull → ⊥ }
{
    match empty_stacks(alloc, rooms, calls as usize) {
        Ok(stacks) => Ok((held, stacks)),
        Err(_) => Err(MakeFault::Memory),
    }
}

/// A machine of these parts, whose `main` is to begin.
fn beginning<'a>(
    core: &'a Core,
    rooms: Rooms,
    calls: u32,
    memory: Store<'a>,
    ghosts: Store<'a>,
    stacks: Stacks<'a>,
) -> Machine<'a>
    requires room { 1 ≤ rooms.work }
    requires memory { memory.memory ≡ start_memory core.now }
    requires ghosts { ghosts.memory ≡ start_ghosts core.now }
    requires stacks { AreEmpty rooms calls stacks }
    ensures started { configuration_of result ≡ turns.start core.now }
    ensures fixed { fixed_of result ≡ fixed_at core.now rooms memory.entry ghosts.entry calls }
{
    let Stacks {
        mut work,
        callers,
        arguments,
        registers,
    } = stacks;
    work.push(Work::Enter(core.start, 0));
    Machine {
        core,
        work,
        told: Told::Left(Left::Next),
        function: 0,
        activation: 0,
        callers,
        arguments,
        memory,
        ghosts,
        registers,
        made: 0,
        allocated: 0,
    }
}

/// A machine with this memory, with all else that a run takes.
fn with_memory<'a>(
    alloc: Global,
    core: &'a Core,
    memory: Store<'a>,
    calls: u32,
) -> Result<Machine<'a>, MakeFault>
    requires runnable { IsRunnable core.now }
    requires calls { 1 ≤ calls }
    requires few { length core.now.globals ≤ 1048576 }
    requires memory { memory.memory ≡ start_memory core.now }
    requires limits { (memory.chunk_limit ≤ 1048576) × (memory.call_limit ≡ calls) }
    ensures started { IfOk result (λ m. configuration_of m ≡ turns.start core.now) }
    ensures runs { IfOk result (λ m. IsRunning 0 m) }
    ensures limits { IfOk result (λ m. (m.memory.chunk_limit ≡ memory.entry.chunk_limit) × (m.memory.call_limit ≡ memory.entry.call_limit)) }
    ensures program { IfOk result (λ m. m.core.now ≡ core.now) }
    ensures room { result ≡ Err MakeFault.GlobalsFull → ⊥ }
{
    let (memory, rooms) = then_rooms(memory, core, calls)?;
    let (memory, ghosts) = then_ghosts(alloc, memory, core, calls)?;
    let ((memory, ghosts), stacks) = then_stacks(alloc, (memory, ghosts), rooms, calls)?;
    Ok(beginning(core, rooms, calls, memory, ghosts, stacks))
}

/// A machine that is to run the program, with so many chunks of 16 cells for variables and heap blocks, and so many activations that may be open.
/// It has all memory of the run. `GlobalsFull` where the variables of file scope need more chunks, and else `Memory` where there is no memory.
pub fn start<'a>(
    alloc: Global,
    core: &'a Core,
    chunks: u32,
    calls: u32,
) -> Result<Machine<'a>, MakeFault>
    requires runnable { IsRunnable core.now }
    requires chunks { (1 ≤ chunks) × (chunks ≤ 1048576) }
    requires calls { (1 ≤ calls) × (calls ≤ 100000) }
    ensures started { IfOk result (λ m. configuration_of m ≡ turns.start core.now) }
    ensures runs { IfOk result (λ m. IsRunning 0 m) }
    ensures limits { IfOk result (λ m. (m.memory.chunk_limit ≡ chunks) × (m.memory.call_limit ≡ calls)) }
    ensures program { IfOk result (λ m. m.core.now ≡ core.now) }
    ensures full { (result ≡ Err MakeFault.GlobalsFull) ↔ (chunks < variables_chunks core.now.layouts core.now.globals) }
{
    let memory = memory(alloc, core, chunks, calls)?;
    with_memory(alloc, core, memory, calls)
}
