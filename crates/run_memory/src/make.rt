//! The memory before the first step: the variables of file scope with their initial values (C11 6.7.9).

ghost use Rattle.std.specs.Prelude.{◌≡◌, ◌+◌, ◌<◌, ◌≤◌, ◌++◌, ℕ, [], ◌∷◌, ◌↔◌, Err, IfOk, length, map, slice_index_or};
ghost use Rattle.std.specs.List.{AllByRecursion};
ghost use Rattle.step_meaning.specs.declared.value.Cell.TheVariants.{Holds};
ghost use Rattle.step_meaning.specs.Memory.{at_block, empty_block, filled, set_cell, unset_cells};
ghost use Rattle.step_meaning.specs.Limits.{chunks_for};
ghost use Rattle.step_meaning.specs.Runs.{global_blocks, start_memory};
ghost use Rattle.step_meaning.specs.Types.{object_cells};
ghost use Rattle.cell_pool.specs.Region.{live_chunks};
ghost use Rattle.run_memory.specs.Cells.{ValueIsNumbered};
ghost use Rattle.run_memory.specs.Start.{IsStart, start_blocks, all_filled};
ghost use Rattle.run_memory.specs.Storage.{AreInitial, IsBlockSized, variables_chunks};

use crate::cell::{Held, PoolCell, held_of, number};
use crate::fill::{Spot, put_held, start_block};
use crate::locate::locate_global;
use crate::room::room_left;
use crate::roomy::Roomy;
use crate::store::Store;
use cell_pool::Pool;
use sqlite_items::Items;
use std::alloc::{AllocError, Global};
use step_meaning::{CType, Core, Declared, Layout, Name, NameKind, Value};

/// Why no memory was made.
#[derive(Clone, Copy, PartialEq, Eq)]
pub enum MakeFault {
    /// The variables of file scope need more chunks than there are.
    GlobalsFull,
    /// Want of memory.
    Memory,
}

/// The name of a variable of file scope.
fn global_name(index: u32) -> Name
    ensures { result ≡ record { kind = NameKind.Global; activation = 0; index = index } }
{
    Name {
        kind: NameKind::Global,
        activation: 0,
        index,
    }
}

/// One variable of file scope more.
fn push_global<'a>(
    pool: &mut Pool<PoolCell<'a>>,
    globals: &mut Roomy<u32>,
    layouts: &'a [Layout],
    ctype: &'a CType,
)
    requires start { IsStart pool.old globals.old.0 }
    requires sized { IsBlockSized layouts.now ctype.now }
    requires room { live_chunks pool.old + chunks_for (length (object_cells layouts.now ctype.now)) ≤ length pool.old.blocks }
    requires size { length pool.old.blocks ≤ 1048576 }
    requires space { length pool.old.blocks ≤ globals.old.1 }
    ensures start { IsStart pool.new globals.new.0 }
    ensures pushed { start_blocks pool.new globals.new.0 ≡ start_blocks pool.old globals.old.0 ++ unset_cells (object_cells layouts.now ctype.now) ∷ [] }
    ensures chunks { live_chunks pool.new ≡ live_chunks pool.old + chunks_for (length (object_cells layouts.now ctype.now)) }
    ensures size { length pool.new.blocks ≡ length pool.old.blocks }
    ensures space { globals.new.1 ≡ globals.old.1 }
{
    let name = number(global_name(globals.len() as u32));
    let slot = start_block(pool, layouts, ctype, None, name);
    globals.push(slot);
}

/// The slot of the variable of file scope that a value points at, and 0 where there is none.
fn global_target(globals: &[u32], value: Value) -> u32 {
    match value {
        Value::Int(_) | Value::Null => 0,
        Value::Pointer(name, _) => match locate_global(globals, name) {
            None => 0,
            Some(slot) => slot,
        },
    }
}

/// A value in one cell of a variable of file scope.
fn put_initial(
    pool: &mut Pool<PoolCell<'_>>,
    globals: &[u32],
    index: usize,
    offset: u32,
    value: Value,
)
    requires start { IsStart pool.old globals.now }
    requires there { index < length globals.now }
    requires numbered { ValueIsNumbered value }
    ensures start { IsStart pool.new globals.now }
    ensures put { start_blocks pool.new globals.now ≡ at_block (set_cell (Holds value) offset) index (start_blocks pool.old globals.now) }
    ensures size { length pool.new.blocks ≡ length pool.old.blocks }
{
    let spot = Spot {
        slot: globals[index],
        name: number(global_name(index as u32)),
        offset,
    };
    put_held(pool, spot, held_of(value, global_target(globals, value)));
}

/// The variables of file scope, whose cells hold nothing yet.
fn push_globals<'a>(
    pool: &mut Pool<PoolCell<'a>>,
    globals: &mut Roomy<u32>,
    layouts: &'a [Layout],
    variables: &'a [Declared],
)
    requires start { IsStart pool.old globals.old.0 }
    requires none { globals.old.0 ≡ [] }
    requires sized { AllByRecursion (λ d. IsBlockSized layouts.now d.ctype) variables.now }
    requires room { live_chunks pool.old + variables_chunks layouts.now variables.now ≤ length pool.old.blocks }
    requires size { length pool.old.blocks ≤ 1048576 }
    requires space { length pool.old.blocks ≤ globals.old.1 }
    ensures start { IsStart pool.new globals.new.0 }
    ensures pushed { start_blocks pool.new globals.new.0 ≡ map (empty_block layouts.now) variables.now }
    ensures size { length pool.new.blocks ≡ length pool.old.blocks }
{
    for variable in variables {
        push_global(pool, globals, layouts, &variable.ctype);
    }
}

/// The value with this number.
fn value_at(values: &[Value], index: usize) -> Value
    requires { index < length values.now }
    ensures { result ≡ slice_index_or values.now index result }
{
    values[index]
}

/// The initial values of one variable of file scope.
fn initialise(pool: &mut Pool<PoolCell<'_>>, globals: &[u32], index: usize, values: &[Value])
    requires start { IsStart pool.old globals.now }
    requires there { index < length globals.now }
    requires initial { AreInitial values.now }
    ensures start { IsStart pool.new globals.now }
    ensures filled { start_blocks pool.new globals.now ≡ at_block (λ b. filled b values.now) index (start_blocks pool.old globals.now) }
    ensures size { length pool.new.blocks ≡ length pool.old.blocks }
{
    for offset in 0..values.len() {
        put_initial(
            pool,
            globals,
            index,
            offset as u32,
            value_at(values, offset),
        );
    }
}

/// Those of all variables of file scope.
fn initialise_all(pool: &mut Pool<PoolCell<'_>>, globals: &[u32], lists: &[Items<Value>])
    requires start { IsStart pool.old globals.now }
    requires initial { AllByRecursion AreInitial lists.now }
    ensures start { IsStart pool.new globals.now }
    ensures filled { start_blocks pool.new globals.now ≡ all_filled (start_blocks pool.old globals.now) lists.now }
    ensures size { length pool.new.blocks ≡ length pool.old.blocks }
{
    for index in 0..globals.len().min(lists.len()) {
        initialise(pool, globals, index, lists[index].as_slice());
    }
}

impl<'a> Store<'a> {
    /// The store of variables that last as long as the program, with their first values.
    pub(crate) fn build(
        alloc: Global,
        layouts: &'a [Layout],
        variables: &'a [Declared],
        initial: &[Items<Value>],
        chunks: u32,
        calls: u32,
    ) -> Result<Store<'a>, AllocError>
        requires chunks { (1 ≤ chunks) × (chunks ≤ 1048576) }
        requires sized { AllByRecursion (λ d. IsBlockSized layouts.now d.ctype) variables.now }
        requires initial { AllByRecursion AreInitial initial.now }
        requires room { variables_chunks layouts.now variables.now ≤ chunks }
        ensures { IfOk result (λ s. s ≡ record { memory = record { globals = global_blocks layouts.now variables.now initial.now; frames = []; heap = [] }; chunk_limit = chunks; call_limit = calls }) }
    {
        let space = chunks as usize;
        let depth = calls as usize;
        let named = Roomy::with_room(alloc, space)?;
        let locals = Roomy::with_room(alloc, space)?;
        let activations = Roomy::with_room(alloc, depth)?;
        let starts = Roomy::with_room(alloc, depth)?;
        let numbers = Roomy::with_room(alloc, space)?;
        let heap = Roomy::with_room(alloc, space)?;
        let mut globals = Roomy::with_room(alloc, space)?;
        let blank = PoolCell {
            held: Held::Nothing,
            ctype: None,
        };
        let mut pool = Pool::make(alloc, chunks, blank)?;
        push_globals(&mut pool, &mut globals, layouts, variables);
        initialise_all(&mut pool, globals.as_slice(), initial);
        Ok(Store {
            pool,
            globals,
            named,
            locals,
            activations,
            starts,
            numbers,
            heap,
        })
    }

    /// The memory of a program before its first step, with so many chunks and room for so many open activations. No other call takes memory.
    pub fn make(
        alloc: Global,
        core: &'a Core,
        chunks: u32,
        calls: u32,
    ) -> Result<Store<'a>, MakeFault>
        requires chunks { (1 ≤ chunks) × (chunks ≤ 1048576) }
        requires sized { AllByRecursion (λ d. IsBlockSized core.now.layouts d.ctype) core.now.globals }
        requires initial { AllByRecursion AreInitial core.now.initial }
        ensures made { IfOk result (λ s. s ≡ record { memory = start_memory core.now; chunk_limit = chunks; call_limit = calls }) }
        ensures full { (result ≡ Err MakeFault.GlobalsFull) ↔ (chunks < variables_chunks core.now.layouts core.now.globals) }
    {
        let layouts = core.layouts.as_slice();
        let variables = core.globals.as_slice();
        if room_left(layouts, variables, chunks).is_none() {
            return Err(MakeFault::GlobalsFull);
        }
        match Store::build(
            alloc,
            layouts,
            variables,
            core.initial.as_slice(),
            chunks,
            calls,
        ) {
            Ok(store) => Ok(store),
            Err(_) => Err(MakeFault::Memory),
        }
    }
}
