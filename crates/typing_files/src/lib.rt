//! What stands at file scope: points between the items of a text, and variables (C11 6.9.2).
#![tactic(auto)]

pub mod sizes;
pub mod tree;
pub mod variable;
