//! Chains of chunks within a region, and the cells in them.

ghost use Rattle.std.specs.Prelude.{◌≡◌, ℕ, ◌+◌, ◌*◌, ◌/◌, ◌<◌, ◌≤◌, IfOk, MatchOption, length, replicate, slice_index};
ghost use Rattle.std.specs.List.{range_with_len};
ghost use Rattle.cell_pool.specs.Chains.{chunk_after};
ghost use Rattle.cell_pool.specs.Inside.{place_of, AreBlankFrom, HasCell, IsCleared};

use std::alloc::{AllocError, Global};

/// A list of so many equal values.
pub fn repeated<T: Copy>(alloc: Global, value: T, count: usize) -> Result<Vec<T>, AllocError>
    ensures { IfOk result (λ list. list.items ≡ replicate count value) }
{
    let mut list = Vec::with_capacity(alloc, count)?;
    for i in 0..count {
        list.push(value)?;
    }
    Ok(list)
}

/// The links of so many chunks, each of which leads to the one behind it.
#[tactic(auto, using(crate::proofs::Making::range_more))]
pub fn linked(alloc: Global, count: u32) -> Result<Vec<u32>, AllocError>
    requires { count ≤ 1048576 }
    ensures { IfOk result (λ next. next.items ≡ range_with_len 1 count) }
{
    let mut next = Vec::with_capacity(alloc, count as usize)?;
    for i in 0..count {
        next.push(i + 1)?;
    }
    Ok(next)
}

/// The chunk that comes `count` after `first` in its chain.
#[tactic(auto, using(crate::proofs::Following::chunks_follow))]
pub fn follow(next: &[u32], first: u32, count: u32) -> u32
    requires { (i : ℕ) → i < count → chunk_after next.now first i < length next.now }
    ensures { result ≡ chunk_after next.now first count }
{
    let mut at = first;
    for i in 0..count {
        at = next[at as usize];
    }
    at
}

/// Makes 16 cells blank.
#[tactic(auto, using(crate::proofs::Clearing::blank_none, crate::proofs::Clearing::blank_more))]
fn clear_chunk<C: Copy>(cells: &mut [C], start: usize, blank: C)
    requires { start + 16 ≤ length cells.old }
    ensures { AreBlankFrom cells.old cells.new start 16 blank }
{
    for i in 0..16 {
        cells[start + i] = blank;
    }
}

/// Makes the cells of a chain's first chunks blank, and gives the chunk that comes after these.
#[tactic(auto, using(crate::proofs::Following::chunks_follow, crate::proofs::Clearing::cleared_none, crate::proofs::Clearing::cleared_more))]
pub fn clear<C: Copy>(cells: &mut [C], next: &[u32], first: u32, count: u32, blank: C) -> u32
    requires within { (i : ℕ) → i < count → chunk_after next.now first i < length next.now }
    requires celled { length cells.old ≡ length next.now * 16 }
    requires small { length next.now ≤ 1048576 }
    ensures after { result ≡ chunk_after next.now first count }
    ensures cleared { IsCleared cells.old cells.new next.now first count blank }
{
    let mut at = first;
    for i in 0..count {
        clear_chunk(cells, at as usize * 16, blank);
        at = next[at as usize];
    }
    at
}

/// Where the cell at an offset of the block with this slot and name lies, if there is such a cell.
pub fn find(
    next: &[u32],
    sizes: &[u32],
    names: &[u64],
    slot: u32,
    name: u64,
    offset: u32,
) -> Option<usize>
    requires within { (i : ℕ) → i ≤ offset / 16 → offset < slice_index sizes.now slot → chunk_after next.now slot i < length next.now }
    requires named { length names.now ≡ length sizes.now }
    requires small { length next.now ≤ 1048576 }
    ensures found { MatchOption
        result
        (HasCell sizes.now names.now slot name offset → ⊥)
        (λ place. (place ≡ place_of next.now slot offset) × HasCell sizes.now names.now slot name offset) }
{
    let at = slot as usize;
    if at >= sizes.len() || names[at] != name || offset >= sizes[at] {
        return None;
    }
    let chunk = follow(next, slot, offset / 16);
    Some(chunk as usize * 16 + (offset % 16) as usize)
}
