//! Tests of the parts of cores and of types, each made once with ample memory, in a crate of their own: a crate with tests is
//! proved twice.
#![tactic(auto)]

#[cfg(test)]
mod tests;
