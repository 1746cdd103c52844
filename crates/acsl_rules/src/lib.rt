//! What terms and predicates of annotations and Ya texts stand for, or the first rule that they break: faults, scopes, and the rules as definitions.
#![tactic(auto)]

mod fault;
mod scope;

pub use fault::TermFault;
pub use scope::{Context, Entry, Scope, ScopeKind};
