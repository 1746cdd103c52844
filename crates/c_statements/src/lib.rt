//! Reading of statements.
#![tactic(auto)]

pub mod exactness;
mod head;
mod local;
mod made;
mod part;
pub mod statement;
mod value;
