//! The types of the cells of a new block.

ghost use Rattle.std.specs.Prelude.{◌≡◌, ◌+◌, ◌*◌, ◌<◌, ◌≤◌, ℕ, [], ◌∷◌, None, Some, length, flat_map, option_map, slice_index_or};
ghost use Rattle.step_meaning.specs.Types.{object_cells, times};
ghost use Rattle.step_meaning.specs.Memory.{unset_cells};
ghost use Rattle.run_memory.specs.Cells.{seen};
ghost use Rattle.step_meaning.specs.Limits.{chunks_for};
ghost use Rattle.cell_pool.specs.Region.{live_chunks, with_block};
ghost use Rattle.run_memory.specs.Cells.{cell_of as seen_cell};
ghost use Rattle.run_memory.specs.Filling.{written_from, with_held, first_cells};

use crate::cell::{Held, PoolCell};
use cell_pool::Pool;
use core_types::cells;
use step_meaning::{CType, Declared, Layout};

/// A place in a block: its slot, the number of its name, and an offset.
#[derive(Clone, Copy)]
pub struct Spot {
    /// The slot of the block.
    pub slot: u32,
    /// The number of its name.
    pub name: u64,
    /// The offset in cells.
    pub offset: u32,
}

/// Writes one cell of a type that holds nothing.
#[tactic(auto, using(crate::proofs::Seeing::seen_with_cell))]
fn fill_scalar<'a>(pool: &mut Pool<PoolCell<'a>>, ctype: &'a CType, at: Spot)
    ensures { seen pool.new ≡ written_from (seen pool.old) at.slot at.name at.offset (unset_cells (ctype.now ∷ [])) }
{
    let cell = PoolCell {
        held: Held::Nothing,
        ctype: Some(ctype),
    };
    let _found = pool.put(at.slot, at.name, at.offset, cell);
}

/// Writes the cells of an object of the type, which hold nothing, and answers the offset after them.
#[cycle(fill)]
pub fn fill_object<'a>(
    pool: &mut Pool<PoolCell<'a>>,
    layouts: &'a [Layout],
    ctype: &'a CType,
    at: Spot,
) -> u32
    requires { at.offset + length (object_cells layouts.now ctype.now) ≤ 65536 }
    ensures next { result ≡ at.offset + length (object_cells layouts.now ctype.now) }
    ensures filled { seen pool.new ≡ written_from (seen pool.old) at.slot at.name at.offset (unset_cells (object_cells layouts.now ctype.now)) }
{
    match ctype {
        CType::Void => at.offset,
        CType::Int(_) => {
            fill_scalar(pool, ctype, at);
            at.offset + 1
        }
        CType::Pointer(_) => {
            fill_scalar(pool, ctype, at);
            at.offset + 1
        }
        CType::Array(of, count) => fill_array(pool, layouts, of.get(), *count, at),
        CType::Struct(number) => fill_struct(pool, layouts, *number as usize, at),
    }
}

/// Writes the cells of so many objects.
#[cycle(fill)]
pub fn fill_array<'a>(
    pool: &mut Pool<PoolCell<'a>>,
    layouts: &'a [Layout],
    of: &'a CType,
    count: u32,
    at: Spot,
) -> u32
    requires { at.offset + count * length (object_cells layouts.now of.now) ≤ 65536 }
    ensures next { result ≡ at.offset + count * length (object_cells layouts.now of.now) }
    ensures filled { seen pool.new ≡ written_from (seen pool.old) at.slot at.name at.offset (unset_cells (times count (object_cells layouts.now of.now))) }
{
    let mut offset = at.offset;
    for i in 0..count {
        let here = Spot {
            slot: at.slot,
            name: at.name,
            offset,
        };
        offset = fill_object(pool, layouts, of, here);
    }
    offset
}

/// Writes the cells of the struct with this number.
#[cycle(fill)]
fn fill_struct<'a>(
    pool: &mut Pool<PoolCell<'a>>,
    layouts: &'a [Layout],
    number: usize,
    at: Spot,
) -> u32
    requires { at.offset + length (object_cells layouts.now (CType.Struct number)) ≤ 65536 }
    ensures next { result ≡ at.offset + length (object_cells layouts.now (CType.Struct number)) }
    ensures filled { seen pool.new ≡ written_from (seen pool.old) at.slot at.name at.offset (unset_cells (object_cells layouts.now (CType.Struct number))) }
{
    if number < layouts.len() {
        fill_members(
            pool,
            &layouts[..number],
            layouts[number].members.as_slice(),
            at,
        )
    } else {
        at.offset
    }
}

/// Writes the cells of members, with the structs before theirs.
#[cycle(fill)]
fn fill_members<'a>(
    pool: &mut Pool<PoolCell<'a>>,
    before: &'a [Layout],
    members: &'a [Declared],
    at: Spot,
) -> u32
    requires { at.offset + length (flat_map (λ d. object_cells before.now d.ctype) members.now) ≤ 65536 }
    ensures next { result ≡ at.offset + length (flat_map (λ d. object_cells before.now d.ctype) members.now) }
    ensures filled { seen pool.new ≡ written_from (seen pool.old) at.slot at.name at.offset (unset_cells (flat_map (λ d. object_cells before.now d.ctype) members.now)) }
{
    let mut offset = at.offset;
    for member in members {
        let here = Spot {
            slot: at.slot,
            name: at.name,
            offset,
        };
        offset = fill_object(pool, before, &member.ctype, here);
    }
    offset
}

/// The cells of so many objects of the type.
#[tactic(auto, using(crate::proofs::TypeCells::few_cells))]
pub fn cells_of(layouts: &[Layout], of: &CType, count: u32) -> u32
    requires some { 1 ≤ count * length (object_cells layouts.now of.now) }
    requires few { count * length (object_cells layouts.now of.now) ≤ 65536 }
    ensures { result ≡ count * length (object_cells layouts.now of.now) }
{
    match cells(layouts, of) {
        Some(size) => count * size as u32,
        None => unreachable!(),
    }
}

/// Takes a block for so many objects of the type, whose cells hold nothing, and answers its slot.
pub fn take_block<'a>(
    pool: &mut Pool<PoolCell<'a>>,
    layouts: &'a [Layout],
    of: &'a CType,
    count: u32,
    name: u64,
) -> u32
    requires some { 1 ≤ count * length (object_cells layouts.now of.now) }
    requires few { count * length (object_cells layouts.now of.now) ≤ 65536 }
    requires room { live_chunks pool.old + chunks_for (count * length (object_cells layouts.now of.now)) ≤ length pool.old.blocks }
    ensures slot { result < length pool.old.blocks }
    ensures clear { slice_index_or (seen pool.old).blocks result None ≡ None }
    ensures taken { seen pool.new ≡ with_block (seen pool.old) result (Some (record { name = name; cells = unset_cells (times count (object_cells layouts.now of.now)) })) }
{
    let wanted = cells_of(layouts, of, count);
    let slot = match pool.take(name, wanted) {
        Ok(slot) => slot,
        Err(_) => unreachable!(),
    };
    let start = Spot {
        slot,
        name,
        offset: 0,
    };
    let _end = fill_array(pool, layouts, of, count, start);
    slot
}

/// Puts something into a cell, whose type stays, where there is such a cell.
pub fn put_held(pool: &mut Pool<PoolCell<'_>>, at: Spot, held: Held)
    ensures { seen pool.new ≡ with_held (seen pool.old) at.slot at.name at.offset (seen_cell held) }
{
    let Some(cell) = pool.get(at.slot, at.name, at.offset) else {
        return;
    };
    let cell = PoolCell {
        held,
        ctype: cell.ctype,
    };
    let _found = pool.put(at.slot, at.name, at.offset, cell);
}

/// Takes a block for a variable of the type, with an argument in its first cell if there is one, and answers its slot.
pub fn start_block<'a>(
    pool: &mut Pool<PoolCell<'a>>,
    layouts: &'a [Layout],
    ctype: &'a CType,
    argument: Option<Held>,
    name: u64,
) -> u32
    requires some { 1 ≤ length (object_cells layouts.now ctype.now) }
    requires few { length (object_cells layouts.now ctype.now) ≤ 65536 }
    requires room { live_chunks pool.old + chunks_for (length (object_cells layouts.now ctype.now)) ≤ length pool.old.blocks }
    ensures slot { result < length pool.old.blocks }
    ensures clear { slice_index_or (seen pool.old).blocks result None ≡ None }
    ensures taken { seen pool.new ≡ with_block (seen pool.old) result (Some (record { name = name; cells = first_cells (unset_cells (object_cells layouts.now ctype.now)) (option_map seen_cell argument) })) }
{
    let slot = take_block(pool, layouts, ctype, 1, name);
    match argument {
        None => {}
        Some(held) => put_held(
            pool,
            Spot {
                slot,
                name,
                offset: 0,
            },
            held,
        ),
    }
    slot
}
