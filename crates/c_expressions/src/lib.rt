//! Reading of expressions.
#![tactic(auto)]

pub mod exactness;
pub mod expression;
