//! Tests of the parser, in a crate of their own: a crate with tests is proved twice.
#![tactic(auto)]

#[cfg(test)]
mod first_form_tests;
#[cfg(test)]
mod grammar_tests;
