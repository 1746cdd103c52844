//! Declarations and definitions of functions (C11 6.7.6.3, 6.9.1).
#![tactic(auto)]

pub mod first;
pub mod function;
pub mod layers;
pub mod parameter;
pub mod prototype;
pub mod signature;
