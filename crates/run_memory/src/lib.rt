//! The memory of a running program: the variables of file scope, those of the open activations and the blocks of the heap, in one region of cells.
#![tactic(auto)]

mod cell;
mod fill;
mod frames;
mod ghosts;
mod heap;
mod laws;
mod locate;
mod make;
mod room;
mod roomy;
mod store;

pub use cell::{Held, PoolCell};
pub use laws::chunks_counted;
pub use make::MakeFault;
pub use roomy::Roomy;
pub use store::Store;
