//! Tests of a board and its passes. They stand in a crate of their own, which is nothing else: a crate with tests is proved
//! twice.
#![tactic(auto)]

#[cfg(test)]
mod bench;
#[cfg(test)]
mod many_tests;
#[cfg(test)]
mod refusal_tests;
#[cfg(test)]
mod script_tests;
#[cfg(test)]
mod scripts;
