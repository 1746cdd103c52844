//! How large the trees of a source are: nodes of expressions, and weighted nodes of declarations and statements.
//!
//! Each call takes what it counts away from a room, and answers what is left of it: 0 where it doesn't fit or fills the
//! room. So there are at most `most` nodes exactly where something is left of `most + 1`, and no sum can wrap.
#![tactic(auto)]

pub mod declarations;
pub mod inits;
pub mod items;
pub mod nodes;
pub mod statements;
