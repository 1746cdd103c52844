//! The postfix form of terms and predicates, in which each operation stands after its operands: so what a term stands for can be made in one pass, in the
//! order of the text. Here are the form of each tree, reading of leaves into it, as definitions, and the law that reading gives the form of the tree.
#![tactic(auto)]

mod laws;
mod operation;
mod sort;

pub use laws::forms_are_read;
pub use operation::Operation;
pub use sort::Sort;
