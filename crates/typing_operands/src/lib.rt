//! What the rules of C on values make, in code: the core of each judgement, from the parts of an expression (C11 6.5). Parts go in, and parts come out.
#![tactic(auto)]

pub mod binary;
pub mod conversion;
pub mod literal;
pub mod part;
pub mod size;
pub mod unary;
pub mod value;
