//! What readers of a grammar share: words, leaves, the cursor over them, and what a part of a tree writes.
#![tactic(auto)]

pub mod chain;
pub mod cursor;
pub mod fault;
pub mod leaf;
pub mod operators;
pub mod word;
