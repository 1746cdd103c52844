//! A run of the machine, step by step, within limits.
#![tactic(auto)]

mod advance;
mod allocate;
mod begin;
mod laws;
mod machine;
mod next;
mod output;
mod run;
mod run_to;

pub use advance::Advance;
pub use laws::sources_run;
pub use machine::{Machine, RunLimits};
pub use run_start::MakeFault;
pub use run_to::RunEnd;
