//! Statements and the declarations of a body (C11 6.7, 6.8): the core that each stands for, or the first broken rule.
#![tactic(auto)]

pub mod body;
pub mod expression;
pub mod jump;
pub mod local;
pub mod made;
pub mod scope;
pub mod statement;
