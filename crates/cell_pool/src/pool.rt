//! The pool: blocks by slot and name.

ghost use Rattle.std.specs.Prelude.{◌≡◌, ◌+◌, ◌<◌, ◌≤◌, ◌↔◌, None, Some, IfOk, IsErr, IsSome, OnErr, is_some, length, option_map, replicate, slice_index_or};
ghost use Rattle.cell_pool.specs.Region.{block_of, cell_of, chunks_of, live_chunks, with_block, with_cell};

use crate::chunks::{clear, find, follow, linked, repeated};
use std::alloc::{AllocError, Global};
use std::marker::Model;

/// The region has too few free chunks for the block.
#[derive(Debug, Clone, Copy, PartialEq, Eq)]
pub struct PoolFull;

/// A region of chunks of 16 cells. A block is a chain of chunks, and so are the free chunks.
#[derive(Drop)]
pub struct Pool<C: Copy> {
    /// The chunk that follows each chunk in its chain.
    next: Vec<u32>,
    /// How many cells the block has that begins in each chunk, 0 where none does.
    sizes: Vec<u32>,
    /// The name of the block that begins in each chunk.
    names: Vec<u64>,
    /// The cells, 16 for each chunk.
    cells: Vec<C>,
    blank: C,
    /// The first free chunk.
    head: u32,
    /// How many chunks are free.
    free: u32,
}

impl<C: Copy> Model for Pool<C> {
    ghost use Rattle.std.specs.Prelude.{length};
    ghost use Rattle.cell_pool.specs.Region.{Region};
    ghost use Rattle.cell_pool.specs.Inside.{region_from, IsPool};

    ghost Value = { Region C };

    ghost view = { λ p. region_from p.blank p.cells.items p.next.items p.sizes.items p.names.items };

    ghost invariant = { λ p. IsPool p.next.items p.sizes.items p.names.items (length p.cells.items) p.head p.free };
}

impl<C: Copy> Pool<C> {
    /// A region of 1 to 1,048,576 chunks without blocks. A cell of a new block holds `blank`. No other call takes memory.
    pub fn make(alloc: Global, chunks: u32, blank: C) -> Result<Pool<C>, AllocError>
        requires { (1 ≤ chunks) × (chunks ≤ 1048576) }
        ensures { IfOk result (λ pool. pool ≡ record { blank = blank; blocks = replicate chunks None }) }
    {
        let next = linked(alloc, chunks)?;
        let sizes = repeated(alloc, 0u32, chunks as usize)?;
        let names = repeated(alloc, 0u64, chunks as usize)?;
        let cells = repeated(alloc, blank, chunks as usize * 16)?;
        Ok(Pool {
            next,
            sizes,
            names,
            cells,
            blank,
            head: 0,
            free: chunks,
        })
    }

    /// Takes a block of 1 to 65,536 blank cells, and answers its slot: the number of the chunk in which it begins.
    ///
    /// The name may be any number. A block is found by its slot and its name, so a pointer to a block that was given
    /// back finds no other one, as long as no name is used twice.
    pub fn take(&mut self, name: u64, cells: u32) -> Result<u32, PoolFull>
        requires { (1 ≤ cells) × (cells ≤ 65536) }
        ensures full { IsErr result ↔ (length self.old.blocks < live_chunks self.old + chunks_of cells) }
        ensures same { OnErr result (self.new ≡ self.old) }
        ensures was_free { IfOk result (λ slot. (slot < length self.old.blocks) × (slice_index_or self.old.blocks slot None ≡ None)) }
        ensures taken { IfOk
            result
            (λ slot. self.new ≡ with_block self.old slot (Some (record { name = name; cells = replicate cells self.old.blank }))) }
    {
        let wanted = cells.div_ceil(16);
        if self.free < wanted {
            return Err(PoolFull);
        }
        let slot = self.head;
        self.head = clear(&mut self.cells, &self.next, slot, wanted, self.blank);
        self.free -= wanted;
        self.sizes[slot as usize] = cells;
        self.names[slot as usize] = name;
        Ok(slot)
    }

    /// Gives a live block back: its chunks are free again, and no cell of it is found any more.
    pub fn give(&mut self, slot: u32, name: u64)
        requires { IsSome (block_of self.old slot name) }
        ensures { self.new ≡ with_block self.old slot None }
    {
        let at = slot as usize;
        let count = self.sizes[at].div_ceil(16);
        let last = follow(&self.next, slot, count - 1);
        self.next[last as usize] = self.head;
        self.head = slot;
        self.free += count;
        self.sizes[at] = 0;
    }

    /// What the cell at an offset of the live block with this slot and name holds; `None` where there is no such cell.
    pub fn get(&self, slot: u32, name: u64, offset: u32) -> Option<C>
        ensures { result ≡ cell_of self.now slot name offset }
    {
        match find(&self.next, &self.sizes, &self.names, slot, name, offset) {
            None => None,
            Some(place) => Some(self.cells[place]),
        }
    }

    /// Changes the cell at an offset of the live block with this slot and name; `false` where there is no such cell.
    pub fn put(&mut self, slot: u32, name: u64, offset: u32, value: C) -> bool
        ensures found { result ≡ is_some (cell_of self.old slot name offset) }
        ensures written { self.new ≡ with_cell self.old slot name offset value }
    {
        match find(&self.next, &self.sizes, &self.names, slot, name, offset) {
            None => false,
            Some(place) => {
                self.cells[place] = value;
                true
            }
        }
    }

    /// How many cells the live block with this slot and name has; `None` where there is no such block.
    pub fn cells_in(&self, slot: u32, name: u64) -> Option<u32>
        ensures { result ≡ option_map (λ block. length block.cells) (block_of self.now slot name) }
    {
        match find(&self.next, &self.sizes, &self.names, slot, name, 0) {
            None => None,
            Some(_) => Some(self.sizes[slot as usize]),
        }
    }

    /// How many chunks the region has.
    pub fn chunks(&self) -> u32
        ensures { result ≡ length self.now.blocks }
    {
        self.next.len() as u32
    }

    /// How many chunks belong to blocks.
    pub fn live_chunks(&self) -> u32
        ensures { result ≡ live_chunks self.now }
    {
        self.next.len() as u32 - self.free
    }
}
