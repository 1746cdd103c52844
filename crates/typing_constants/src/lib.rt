//! Constant expressions and address constants, told by their cores (C11 6.6): values without a fault, sizes of arrays, and what a cell of file scope starts with. Nothing here takes memory.
#![tactic(auto)]

pub mod address;
pub mod constant;
pub mod operator;
