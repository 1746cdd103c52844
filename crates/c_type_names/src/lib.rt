//! Steps of readers, and the reading of types and of their names.
#![tactic(auto)]

pub mod chain;
pub mod held;
pub mod types;
