//! Tests of the texts of files that are refused. They stand in a crate of their own, which is nothing else: a crate with tests is proved
//! twice.
#![tactic(auto)]

#[cfg(test)]
mod slips;
#[cfg(test)]
mod text_tests;
