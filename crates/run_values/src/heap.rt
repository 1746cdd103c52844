//! `malloc` and `free` (C11 7.22.3).

ghost use Rattle.std.specs.Prelude.{◌≡◌, ◌*◌, ◌+◌, ◌<◌, ◌≤◌, false, length, true, MatchOption};
ghost use Rattle.step_meaning.specs.Allocation.{block_for, block_pointer as pointer_to_block, is_block_size};
ghost use Rattle.step_meaning.specs.Memory.{freed};
ghost use Rattle.step_meaning.specs.Names.{integer as integer_value};
ghost use Rattle.step_meaning.specs.Numbers.{low_bits};
ghost use Rattle.step_meaning.specs.TypeRules.{cells as cells_of};
ghost use Rattle.run_turns.specs.Turns.{allocating, released};
ghost use Rattle.run_state.specs.Machine.{configuration_of, fixed_of};
ghost use Rattle.run_values.specs.Operands.{IsBlock, MayAllocate};

use core_types::cells;
use run_state::{Machine, Told, integer};
use step_meaning::{CType, IntKind, Layout, Name, NameKind, RunFault, Value, convert};

/// The count of objects that `malloc` is asked for.
fn object_count(v: Value) -> u64
    ensures { result ≡ low_bits 64 (integer_value v) }
{
    convert(IntKind::ULong, integer(v)) as u64
}

/// The same count, where so many objects of a size make a block.
fn fitting(count: u64, size: u128) -> Option<u32>
    ensures { MatchOption result (is_block_size (count * size) ≡ false) (λ n. IsBlock size count n) }
{
    let Some(total) = u128::from(count).checked_mul(size) else {
        return None;
    };
    if total < 1 || total > 65536 {
        return None;
    }
    Some(count as u32)
}

/// The same count, where so many objects of the type have a cell or more and no more than a block may have.
fn block_count(layouts: &[Layout], of: &CType, count: u64) -> Option<u32>
    ensures { MatchOption result (is_block_size (count * cells_of layouts.now of.now) ≡ false) (λ n. IsBlock (cells_of layouts.now of.now) count n) }
{
    match cells(layouts, of) {
        None => None,
        Some(size) => fitting(count, size),
    }
}

/// The pointer to the beginning of the heap block with this number.
fn block_pointer(number: u64) -> Value
    ensures { result ≡ pointer_to_block number }
{
    let name = Name {
        kind: NameKind::Heap,
        activation: number,
        index: 0,
    };
    Value::Pointer(name, 0)
}

/// `malloc` of so many objects of the type (C11 7.22.3.4).
pub fn allocate<'a>(machine: &mut Machine<'a>, ctype: &'a CType, v: Value)
    requires may { MayAllocate machine.old ctype.now v }
    ensures fixed { fixed_of machine.new ≡ fixed_of machine.old }
    ensures turned { configuration_of machine.new ≡ (allocating machine.old.core.now ctype.now v (configuration_of machine.old)).after }
{
    let layouts = machine.core.layouts.as_slice();
    match block_count(layouts, ctype, object_count(v)) {
        None => machine.told = Told::Gave(Value::Null),
        Some(count) => {
            machine
                .memory
                .malloc(layouts, ctype, count, machine.allocated);
            machine.told = Told::Gave(block_pointer(machine.allocated));
            machine.allocated += 1;
        }
    }
}

/// `free` of the pointer (C11 7.22.3.3).
pub fn release(machine: &mut Machine<'_>, p: Value)
    requires free { length machine.old.work.0 < machine.old.work.1 }
    ensures fixed { fixed_of machine.new ≡ fixed_of machine.old }
    ensures turned { configuration_of machine.new ≡ released (freed machine.old.memory.memory p) (configuration_of machine.old) }
{
    if machine.memory.free(p) {
        machine.told = Told::Gave(Value::Int(0));
        return;
    }
    machine.halt(RunFault::BadFree);
}
