//! Whether expressions nest below a limit.
#![tactic(auto)]

pub mod nesting;
