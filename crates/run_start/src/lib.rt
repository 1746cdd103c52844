//! The machine before its first step, with all memory of a run.
#![tactic(auto)]

mod depths;
mod heights;
mod make;
mod rooms;
mod stacks;

pub use make::start;
pub use run_memory::MakeFault;
