//! The grammar of C: concrete trees, and what each tree writes.
#![tactic(auto)]

pub mod declaration;
pub mod expression;
pub mod measured;
pub mod program;
pub mod statement;
pub mod types;
pub mod whole;
