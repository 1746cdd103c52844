//! The store: the memory of a running program, its reads and writes.

ghost use Rattle.std.specs.Prelude.{◌≡◌, ℕ, ◌+◌, ◌<◌, ◌≤◌, cond, Some, is_some, length, option_map};
ghost use Rattle.step_meaning.specs.Memory.{reached, stored, room_at, typed};
ghost use Rattle.step_meaning.specs.Types.{same_type as are_same};
ghost use Rattle.step_meaning.specs.Limits.{chunks};
ghost use Rattle.step_meaning.specs.declared.value.Cell.TheVariants.{Holds};
ghost use Rattle.cell_pool.specs.Region.{cell_of as cell_of_region};
ghost use Rattle.run_memory.specs.Cells.{ValueIsNumbered, or_void, slot_of, cell_of as seen_cell, seen};
ghost use Rattle.run_memory.specs.Filling.{with_held};

use crate::cell::{Held, PoolCell, cell_of, held_of, number};
use crate::fill::Spot;
use crate::locate::{find_slot, target_of};
use crate::roomy::Roomy;
use cell_pool::Pool;
use core_types::same_type;
use std::marker::Model;
use step_meaning::{CType, Cell, Value};

/// The cells of the live variables and heap blocks, in one region. For each there is the slot of its block.
#[derive(Drop)]
pub struct Store<'a> {
    pub(crate) pool: Pool<PoolCell<'a>>,
    /// The slots of the variables of file scope.
    pub(crate) globals: Roomy<u32>,
    /// The number of each local's name, which rise.
    pub(crate) named: Roomy<u64>,
    /// The slots of the locals of all open activations, the outermost activation first.
    pub(crate) locals: Roomy<u32>,
    /// The numbers of the open activations, which rise.
    pub(crate) activations: Roomy<u64>,
    /// The place at which the locals of each begin.
    pub(crate) starts: Roomy<u32>,
    /// The numbers of the live heap blocks, which rise.
    pub(crate) numbers: Roomy<u64>,
    /// Their slots.
    pub(crate) heap: Roomy<u32>,
}

impl<'a> Model for Store<'a> {
    ghost use Rattle.std.specs.Prelude.{length};
    ghost use Rattle.step_meaning.specs.contracts.value.CType as ctype;
    ghost use Rattle.std.specs.Coded.{codes};
    ghost use Rattle.run_memory.specs.Storage.{Storage, storage_of, IsKept};

    ghost Value = { Storage };

    ghost coded = { Prim.hlevel (codes, ctype.the_row.coded) };

    ghost view = { λ s. storage_of s.pool s.globals.0 s.locals.0 s.activations.0 s.starts.0 s.numbers.0 s.heap.0 s.activations.1 };

    ghost invariant = { λ s. IsKept s.pool s.globals.0 s.named.0 s.locals.0 s.activations.0 s.starts.0 s.numbers.0 s.heap.0 s.activations.1 s.named.1 s.locals.1 s.activations.1 s.starts.1 s.numbers.1 s.heap.1 };
}

/// Whether a cell has the type.
fn has_type(ctype: Option<&CType>, accessed: &CType) -> bool
    ensures { result ≡ are_same (or_void (option_map (λ t. t.now) ctype.entry)) accessed.now }
{
    match ctype {
        None => matches!(accessed, CType::Void),
        Some(ctype) => same_type(ctype, accessed),
    }
}

/// The cell that an access of the type reaches.
fn typed_cell(cell: Option<PoolCell<'_>>, accessed: &CType) -> Option<Cell>
    ensures { result ≡ typed (option_map slot_of cell.entry) accessed.now }
{
    match cell {
        None => None,
        Some(cell) => {
            if has_type(cell.ctype, accessed) {
                Some(cell_of(cell.held))
            } else {
                None
            }
        }
    }
}

/// Writes one cell, where it is there and has the type, and answers whether it has.
fn write_cell(pool: &mut Pool<PoolCell<'_>>, at: Spot, accessed: &CType, held: Held) -> bool
    ensures allowed { result ≡ is_some (typed (cell_of_region (seen pool.old) at.slot at.name at.offset) accessed.now) }
    ensures written { seen pool.new ≡ cond result (with_held (seen pool.old) at.slot at.name at.offset (seen_cell held)) (seen pool.old) }
{
    let Some(cell) = pool.get(at.slot, at.name, at.offset) else {
        return false;
    };
    if !has_type(cell.ctype, accessed) {
        return false;
    }
    let cell = PoolCell {
        held,
        ctype: cell.ctype,
    };
    pool.put(at.slot, at.name, at.offset, cell)
}

impl Store<'_> {
    /// The cell that a read of the type at the pointer reaches, where it is allowed.
    pub fn read(&self, p: Value, accessed: &CType) -> Option<Cell>
        ensures { result ≡ reached self.now.memory p accessed.now }
    {
        let Value::Pointer(name, offset) = p else {
            return None;
        };
        match find_slot(
            &self.globals,
            &self.named,
            &self.locals,
            &self.numbers,
            &self.heap,
            name,
        ) {
            None => None,
            Some(slot) => typed_cell(self.pool.get(slot, number(name), offset), accessed),
        }
    }

    /// Writes a value at the pointer, where a write of the type is allowed, and answers whether it is.
    pub fn write(&mut self, p: Value, accessed: &CType, value: Value) -> bool
        requires { ValueIsNumbered value }
        ensures allowed { result ≡ is_some (reached self.old.memory p accessed.now) }
        ensures written { self.new ≡ cond result (record self.old { memory = stored self.old.memory p (Holds value) }) self.old }
    {
        let Value::Pointer(name, offset) = p else {
            return false;
        };
        let Some(slot) = find_slot(
            &self.globals,
            &self.named,
            &self.locals,
            &self.numbers,
            &self.heap,
            name,
        ) else {
            return false;
        };
        let target = target_of(
            &self.globals,
            &self.named,
            &self.locals,
            &self.numbers,
            &self.heap,
            value,
        );
        let spot = Spot {
            slot,
            name: number(name),
            offset,
        };
        write_cell(&mut self.pool, spot, accessed, held_of(value, target))
    }

    /// How many cells the variable or heap block has that a pointer names, and none where it isn't live.
    pub fn room(&self, p: Value) -> Option<u32>
        ensures { result ≡ room_at self.now.memory p }
    {
        let Value::Pointer(name, _) = p else {
            return None;
        };
        match find_slot(
            &self.globals,
            &self.named,
            &self.locals,
            &self.numbers,
            &self.heap,
            name,
        ) {
            None => None,
            Some(slot) => self.pool.cells_in(slot, number(name)),
        }
    }

    /// How many chunks the live variables and heap blocks have.
    pub fn chunks(&self) -> u32
        ensures { result ≡ chunks self.now.memory }
    {
        self.pool.live_chunks()
    }
}
