//! The leaves of annotations and of Ya texts: what their grammars see of the tokens.
#![tactic(auto)]

mod leaves;

pub use leaves::annotation_leaves;
