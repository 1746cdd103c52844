//! Tests of elaboration over texts: one row for each sentence of the typing rules, accepted and refused.
#![tactic(auto)]

#[cfg(test)]
mod allocation_tests;
#[cfg(test)]
mod assignment_tests;
#[cfg(test)]
mod initialiser_tests;
#[cfg(test)]
mod limit_tests;
#[cfg(test)]
mod name_tests;
#[cfg(test)]
mod operator_tests;
#[cfg(test)]
mod refusal_tests;
#[cfg(test)]
mod shown;
#[cfg(test)]
mod statement_tests;
#[cfg(test)]
mod type_tests;
