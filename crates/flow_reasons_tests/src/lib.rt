//! Tests of what stands around remarks. They stand in a crate of their own, which is nothing else: a crate with tests is proved twice.
#![tactic(auto)]

#[cfg(test)]
mod questions;
#[cfg(test)]
mod reason_tests;
