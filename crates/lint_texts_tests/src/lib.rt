//! Tests of the texts of lints. They stand in a crate of their own, which is nothing else: a crate with tests is proved twice.
#![tactic(auto)]

#[cfg(test)]
mod text_tests;
#[cfg(test)]
mod texts;
