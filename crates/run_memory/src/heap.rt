//! Blocks of the heap that begin and end (C11 7.22.3).

ghost use Rattle.std.specs.Prelude.{◌≡◌, ℕ, ◌+◌, ◌*◌, ◌<◌, ◌≤◌, MatchOption, is_some, length};
ghost use Rattle.step_meaning.specs.Types.{object_cells, times};
ghost use Rattle.step_meaning.specs.Names.{same_kind};
ghost use Rattle.step_meaning.specs.Limits.{chunks, chunks_for};
ghost use Rattle.step_meaning.specs.Memory.{freed, unset_cells, with_block};
ghost use Rattle.run_memory.specs.Inside.{DontFall};
ghost use Rattle.run_memory.specs.Storage.{BeginsAt, IsNewerBlock, or_same};

use crate::cell::number;
use crate::fill::take_block;
use crate::locate::place_of;
use crate::roomy::Roomy;
use crate::store::Store;
use step_meaning::{CType, Layout, Name, NameKind, Value};

impl<'a> Store<'a> {
    /// A block for so many objects of the type begins, with this number. Its cells hold nothing.
    pub fn malloc(&mut self, layouts: &'a [Layout], of: &'a CType, count: u32, block: u64)
        requires some { 1 ≤ count * length (object_cells layouts.now of.now) }
        requires few { count * length (object_cells layouts.now of.now) ≤ 65536 }
        requires room { chunks self.old.memory + chunks_for (count * length (object_cells layouts.now of.now)) ≤ self.old.chunk_limit }
        requires newer { IsNewerBlock block self.old.memory.heap }
        requires small { block < 1099511627776 }
        ensures { self.new ≡ record self.old { memory = with_block block (unset_cells (times count (object_cells layouts.now of.now))) self.old.memory } }
    {
        let name = number(Name {
            kind: NameKind::Heap,
            activation: block,
            index: 0,
        });
        let slot = take_block(&mut self.pool, layouts, of, count, name);
        self.numbers.push(block);
        self.heap.push(slot);
    }

    /// `free` of the pointer: null does nothing, and at its beginning a block ends. Answers whether the pointer is one of these.
    pub fn free(&mut self, p: Value) -> bool
        ensures allowed { result ≡ is_some (freed self.old.memory p) }
        ensures ended { self.new ≡ record self.old { memory = or_same (freed self.old.memory p) self.old.memory } }
    {
        let Value::Pointer(name, offset) = p else {
            return matches!(p, Value::Null);
        };
        let Some(place) = begins_at(&self.numbers, name, offset) else {
            return false;
        };
        let slot = self.heap.as_slice()[place];
        self.pool.give(slot, number(name));
        self.numbers.remove(place);
        self.heap.remove(place);
        true
    }
}

/// The place of the heap block at whose beginning a pointer is.
fn begins_at(numbers: &Roomy<u64>, name: Name, offset: u32) -> Option<usize>
    requires rise { DontFall numbers.now.0 }
    ensures { MatchOption result ((k : ℕ) → BeginsAt numbers.now.0 name offset k → ⊥) (λ k. BeginsAt numbers.now.0 name offset k) }
{
    if !is_heap(name.kind) || name.index != 0 || offset != 0 {
        return None;
    }
    place_of(numbers.as_slice(), name.activation)
}

/// Whether a name is that of a heap block.
fn is_heap(kind: NameKind) -> bool
    ensures { result ≡ same_kind kind NameKind.Heap }
{
    match kind {
        NameKind::Heap => true,
        NameKind::Global
        | NameKind::Local
        | NameKind::Register
        | NameKind::GhostGlobal
        | NameKind::GhostLocal => false,
    }
}
