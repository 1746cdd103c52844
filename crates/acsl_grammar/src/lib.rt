//! The grammar of terms and predicates in annotations and Ya texts: concrete trees, what each writes, and reading, as specification data. It has no
//! code but the law on them.
#![tactic(auto)]

mod laws;

pub use laws::one_tree;
