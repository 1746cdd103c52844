//! What the typing rules ask of a tree of an expression before anything is made of it: where it begins, whether it is a number alone, whether its indices are literals, and whether it has the form of an argument of `malloc`.
#![tactic(auto)]

pub mod first;
pub mod indices;
pub mod number;
pub mod request;
