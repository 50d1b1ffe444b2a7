//! Tests of witnesses. They stand in a crate of their own, which is nothing else: a crate with tests is proved twice.
#![tactic(auto)]

#[cfg(test)]
mod point_tests;
#[cfg(test)]
mod walks;
#[cfg(test)]
mod witness_tests;
#[cfg(test)]
mod witnesses;
