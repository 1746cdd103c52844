//! Tests of the truth of predicates and of the values of terms, in a crate of their own: a crate with tests is proved twice.
#![tactic(auto)]

#[cfg(test)]
mod tests;
mod view;
