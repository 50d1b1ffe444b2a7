//! Tests of what `taclint` does with its words and with a file. They stand in a crate of their own, which is nothing else: a crate with tests
//! is proved twice.
#![tactic(auto)]

#[cfg(test)]
mod run_tests;
#[cfg(test)]
mod word_tests;
