//! Elaboration of expressions: the parts of a construct from left to right, then its rule (C11 6.5).
#![tactic(auto)]

pub mod expression;
pub mod full;
pub mod step;
