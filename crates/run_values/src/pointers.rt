//! Pointers that are moved, and their differences (C11 6.5.6).

ghost use Rattle.std.specs.Prelude.{◌≡◌, ◌^◌, ◌*ℤ◌, ◌≤ℤ◌, ℕ, pos, neg_ℤ};
ghost use Rattle.step_meaning.specs.Memory.{room_at};
ghost use Rattle.step_meaning.specs.Names.{distance, integer as integer_value, moved};
ghost use Rattle.run_turns.specs.Turns.{elements_moved};
ghost use Rattle.run_values.specs.Operands.{AreMoved, ArePointers, AreSided, IsWord, in_no_units};

use run_memory::Store;
use run_state::integer;
use step_meaning::{RunFault, Side, Value, pointer_add, pointer_diff};

/// So many elements of a size in cells.
pub fn in_cells(v: Value, size: u32) -> i128
    requires { IsWord v }
    ensures product { result ≡ integer_value v *ℤ pos size }
    ensures low { neg_ℤ (pos (2 ^ 100)) ≤ℤ result }
    ensures high { result ≤ℤ pos (2 ^ 100) }
{
    integer(v) * i128::from(size)
}

/// A pointer that goes forward by so many elements of a size in cells.
pub fn forward(memory: &Store<'_>, p: Value, i: Value, size: u32) -> Result<Value, RunFault>
    requires { AreMoved p i }
    ensures { result ≡ moved p (room_at memory.now.memory p) (integer_value i *ℤ pos size) }
{
    pointer_add(p, memory.room(p), in_cells(i, size))
}

/// A pointer that goes back by so many elements of a size in cells.
pub fn backward(memory: &Store<'_>, p: Value, i: Value, size: u32) -> Result<Value, RunFault>
    requires { AreMoved p i }
    ensures { result ≡ moved p (room_at memory.now.memory p) (neg_ℤ (integer_value i *ℤ pos size)) }
{
    pointer_add(p, memory.room(p), -in_cells(i, size))
}

/// A pointer and an integer in elements of a size in cells, as they stand in the text.
pub fn move_elements(
    memory: &Store<'_>,
    side: Side,
    size: u32,
    v: Value,
    w: Value,
) -> Result<Value, RunFault>
    requires { AreSided side v w }
    ensures { result ≡ elements_moved memory.now.memory side size v w }
{
    match side {
        Side::PointerFirst => forward(memory, v, w, size),
        Side::PointerLast => forward(memory, w, v, size),
        Side::Minus => backward(memory, v, w, size),
    }
}

/// The difference of two pointers in elements without cells, which no object has, from that in cells.
fn no_units(outcome: Result<i128, RunFault>) -> Result<i128, RunFault>
    ensures { result ≡ in_no_units outcome }
{
    match outcome {
        Ok(cells) => {
            if cells == 0 {
                Ok(0)
            } else {
                Err(RunFault::Pointer)
            }
        }
        Err(fault) => Err(fault),
    }
}

/// The difference of two pointers in elements of a size in cells.
#[tactic(auto, using(crate::proofs::Differences::no_size))]
pub fn difference(p: Value, q: Value, size: u32) -> Result<i128, RunFault>
    requires { ArePointers p q }
    ensures { result ≡ distance p q size }
{
    if size == 0 {
        return no_units(pointer_diff(p, q, 1));
    }
    pointer_diff(p, q, size)
}
