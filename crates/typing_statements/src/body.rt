//! What the statements of one function share.

use std::alloc::Global;
use step_meaning::CType;

/// What is the same in all of a function's body: where memory comes from, and the type that its `return` gives.
#[derive(Clone, Copy)]
pub struct Body<'b> {
    pub alloc: Global,
    pub returns: &'b CType,
}
