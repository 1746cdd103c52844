//! Operands with operators of all levels between them, grouped by the levels.
#![tactic(auto)]

pub mod group;
