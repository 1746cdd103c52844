//! The slot at which the block of a name begins.

ghost use Rattle.std.specs.Prelude.{◌≡◌, ℕ, ◌<◌, ◌≤◌, length, slice_index_or, MatchOption, option_map};
ghost use Rattle.run_memory.specs.Inside.{DontFall, LocatedGlobal, LocatedLocal, LocatedHeap, LocatedIn};
ghost use Rattle.step_meaning.specs.declared.value.Cell.TheVariants.{Holds};
ghost use Rattle.run_memory.specs.Cells.{cell_of as seen_cell, ArgumentIsNumbered};

use crate::cell::{Held, held_of, number};
use crate::roomy::Roomy;
use step_meaning::{Name, NameKind, Value};

/// The place of a number among numbers that rise.
pub fn place_of(numbers: &[u64], wanted: u64) -> Option<usize>
    requires { DontFall numbers.now }
    ensures { MatchOption
        result
        ((k : ℕ) → k < length numbers.now → slice_index_or numbers.now k 0 ≡ wanted → ⊥)
        (λ k. (k < length numbers.now) × (slice_index_or numbers.now k 0 ≡ wanted)) }
{
    match numbers.binary_search(&wanted) {
        Ok(place) => Some(place),
        Err(_) => None,
    }
}

/// The slot of a variable of file scope.
pub fn locate_global(globals: &[u32], name: Name) -> Option<u32>
    ensures { MatchOption
        result
        ((s : ℕ) → LocatedGlobal globals.now name.activation name.index s → ⊥)
        (λ s. LocatedGlobal globals.now name.activation name.index s) }
{
    let index = name.index as usize;
    if name.activation == 0 && index < globals.len() {
        Some(globals[index])
    } else {
        None
    }
}

/// The slot of a local of an open activation.
fn locate_local(named: &[u64], locals: &[u32], name: Name) -> Option<u32>
    requires kind { name.kind ≡ NameKind.Local }
    requires rise { DontFall named.now }
    requires as_many { length named.now ≡ length locals.now }
    ensures { MatchOption
        result
        ((s : ℕ) → LocatedLocal named.now locals.now name.activation name.index s → ⊥)
        (λ s. LocatedLocal named.now locals.now name.activation name.index s) }
{
    if name.activation >= 1_099_511_627_776 || name.index >= 4_194_304 {
        return None;
    }
    match place_of(named, number(name)) {
        None => None,
        Some(place) => Some(locals[place]),
    }
}

/// The slot of a heap block.
fn locate_heap(numbers: &[u64], heap: &[u32], name: Name) -> Option<u32>
    requires rise { DontFall numbers.now }
    requires as_many { length numbers.now ≡ length heap.now }
    ensures { MatchOption
        result
        ((s : ℕ) → LocatedHeap numbers.now heap.now name.activation name.index s → ⊥)
        (λ s. LocatedHeap numbers.now heap.now name.activation name.index s) }
{
    if name.index != 0 {
        return None;
    }
    match place_of(numbers, name.activation) {
        None => None,
        Some(place) => Some(heap[place]),
    }
}

/// The slot of a live variable or heap block, and none of others.
pub fn locate(
    globals: &[u32],
    named: &[u64],
    locals: &[u32],
    numbers: &[u64],
    heap: &[u32],
    name: Name,
) -> Option<u32>
    requires names_rise { DontFall named.now }
    requires as_many_names { length named.now ≡ length locals.now }
    requires numbers_rise { DontFall numbers.now }
    requires as_many_numbers { length numbers.now ≡ length heap.now }
    ensures { MatchOption
        result
        ((s : ℕ) → LocatedIn globals.now named.now locals.now numbers.now heap.now name.kind name.activation name.index s → ⊥)
        (λ s. LocatedIn globals.now named.now locals.now numbers.now heap.now name.kind name.activation name.index s) }
{
    match name.kind {
        NameKind::Global => locate_global(globals, name),
        NameKind::Local => locate_local(named, locals, name),
        NameKind::Heap => locate_heap(numbers, heap, name),
        NameKind::Register | NameKind::GhostGlobal | NameKind::GhostLocal => None,
    }
}

/// The same of the lists of a store.
pub fn find_slot(
    globals: &Roomy<u32>,
    named: &Roomy<u64>,
    locals: &Roomy<u32>,
    numbers: &Roomy<u64>,
    heap: &Roomy<u32>,
    name: Name,
) -> Option<u32>
    requires names_rise { DontFall named.now.0 }
    requires as_many_names { length named.now.0 ≡ length locals.now.0 }
    requires numbers_rise { DontFall numbers.now.0 }
    requires as_many_numbers { length numbers.now.0 ≡ length heap.now.0 }
    ensures { MatchOption
        result
        ((s : ℕ) → LocatedIn globals.now.0 named.now.0 locals.now.0 numbers.now.0 heap.now.0 name.kind name.activation name.index s → ⊥)
        (λ s. LocatedIn globals.now.0 named.now.0 locals.now.0 numbers.now.0 heap.now.0 name.kind name.activation name.index s) }
{
    locate(
        globals.as_slice(),
        named.as_slice(),
        locals.as_slice(),
        numbers.as_slice(),
        heap.as_slice(),
        name,
    )
}

/// The slot of the variable or heap block that a value points at, and 0 where there is none.
pub fn target_of(
    globals: &Roomy<u32>,
    named: &Roomy<u64>,
    locals: &Roomy<u32>,
    numbers: &Roomy<u64>,
    heap: &Roomy<u32>,
    value: Value,
) -> u32
    requires names_rise { DontFall named.now.0 }
    requires as_many_names { length named.now.0 ≡ length locals.now.0 }
    requires numbers_rise { DontFall numbers.now.0 }
    requires as_many_numbers { length numbers.now.0 ≡ length heap.now.0 }
{
    match value {
        Value::Int(_) | Value::Null => 0,
        Value::Pointer(name, _) => {
            match find_slot(globals, named, locals, numbers, heap, name) {
                None => 0,
                Some(slot) => slot,
            }
        }
    }
}

/// What stands for an argument in the region.
pub fn argument_of(
    globals: &Roomy<u32>,
    named: &Roomy<u64>,
    locals: &Roomy<u32>,
    numbers: &Roomy<u64>,
    heap: &Roomy<u32>,
    argument: Option<Value>,
) -> Option<Held>
    requires names_rise { DontFall named.now.0 }
    requires as_many_names { length named.now.0 ≡ length locals.now.0 }
    requires numbers_rise { DontFall numbers.now.0 }
    requires as_many_numbers { length numbers.now.0 ≡ length heap.now.0 }
    requires numbered { ArgumentIsNumbered argument }
    ensures { option_map seen_cell result ≡ option_map Holds argument }
{
    match argument {
        None => None,
        Some(value) => {
            let slot = target_of(globals, named, locals, numbers, heap, value);
            Some(held_of(value, slot))
        }
    }
}
