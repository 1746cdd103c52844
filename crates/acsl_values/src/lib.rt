//! The values of terms of predicates and of ghost code, in a view of a step. Nothing here takes memory.
#![tactic(auto)]

mod operators;
mod reads;
mod terms;
mod values;

pub use terms::{value_at, value_of};
pub use values::{Moment, TermValue};
