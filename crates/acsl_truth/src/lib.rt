//! The truth of predicates, in a view of a step. Nothing here takes memory.
#![tactic(auto)]

mod objects;
mod ranges;
mod relations;
mod separation;
mod truth;
mod validity;

pub use truth::holds;
