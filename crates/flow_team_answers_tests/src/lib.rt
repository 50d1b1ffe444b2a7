//! Tests of what is asked of a graph and answered. They stand in a crate of their own, which is nothing else: a crate with tests is
//! proved twice.
#![tactic(auto)]

#[cfg(test)]
mod overlap_tests;
#[cfg(test)]
mod query_tests;
#[cfg(test)]
mod refusal_tests;
