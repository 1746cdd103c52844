//! What is known at a point of a text: the names of scopes, tags and structs, each found in constant time, and the types that a text spells (C11 6.2.1).
#![tactic(auto)]

pub mod block;
pub mod bodies;
pub mod declaring;
pub mod found;
pub mod known;
pub mod names;
pub mod spelled;
pub mod table;
