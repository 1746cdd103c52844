//! Definitions of structs (C11 6.7.2.1).
#![tactic(auto)]

pub mod member;
pub mod structure;
