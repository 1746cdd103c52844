//! What the machine makes of values: operators, accesses to what lvalues designate, and the blocks of the heap.
#![tactic(auto)]

mod accesses;
mod comparisons;
mod heap;
mod operators;
mod pointers;
mod told;
mod updates;

pub use accesses::{access, designated_at, select};
pub use operators::operate;
