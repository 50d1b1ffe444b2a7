//! Tests of bounds of very busy expressions. They stand in a crate of their own, which is nothing else: a crate with tests is proved twice.
#![tactic(auto)]

#[cfg(test)]
mod mask_tests;
