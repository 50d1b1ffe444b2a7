//! Tests of tables and reports as texts. They stand in a crate of their own, which is nothing else: a crate with tests is proved twice.
#![tactic(auto)]

#[cfg(test)]
mod overlap_tests;
#[cfg(test)]
mod piece_tests;
#[cfg(test)]
mod refusal_tests;
#[cfg(test)]
mod slice_tests;
