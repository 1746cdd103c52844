//! The steps of elaboration that look at no tree: each rule on operands and values, in what is known at a point of a text (C11 6.5).
#![tactic(auto)]

pub mod called;
pub mod leaf;
pub mod rule;
pub mod suffix;
