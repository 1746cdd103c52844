//! Initialisers (C11 6.7.9): the cells of an object in ascending order, with what each starts with.
#![tactic(auto)]

pub mod alone;
pub mod cells;
pub mod file;
pub mod filling;
pub mod locals;
pub mod parts;
pub mod zeros;
