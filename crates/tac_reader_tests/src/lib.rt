//! Tests of the reader and of listings. They stand in a crate of their own, which is nothing else: a crate with tests is proved twice.
#![tactic(auto)]

#[cfg(test)]
mod reader_tests;
#[cfg(test)]
mod refusal_tests;
