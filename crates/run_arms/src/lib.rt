//! What the machine makes of a part of the program: expressions, lvalues and statements that begin, statements that go on, and the end of an activation.
#![tactic(auto)]

mod blocks;
mod calls;
mod expressions;
mod loops;
mod statements;

pub use blocks::{in_block, in_body};
pub use calls::{argue, argument, leave};
pub use expressions::{evaluate, locate};
pub use loops::{after_body, again};
pub use statements::{conclude, execute};
