//! Tests of rows of bits and of cuts. They stand in a crate of their own, which is nothing else: a crate with tests is proved twice.
#![tactic(auto)]

#[cfg(test)]
mod refusal_tests;
#[cfg(test)]
mod row_tests;
