//! A region of cells in chunks of 16, in which blocks are taken and given back without taking memory.
#![tactic(auto)]

mod chunks;
mod laws;
mod pool;

pub use laws::cells_kept;
pub use pool::{Pool, PoolFull};
