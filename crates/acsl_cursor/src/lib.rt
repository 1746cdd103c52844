//! The leaves of terms and predicates that are left, taken one by one, and the operations that were made of those before them.
#![tactic(auto)]

pub mod reader;
pub mod way;
pub mod words;
