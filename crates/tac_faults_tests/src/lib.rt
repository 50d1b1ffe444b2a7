//! Tests of the faults that are told of a text, and of what is told on their mend. They stand in a crate of their own, which is nothing
//! else: a crate with tests is proved twice.
#![tactic(auto)]

#[cfg(test)]
mod fault_tests;
#[cfg(test)]
mod long_tests;
#[cfg(test)]
mod refusal_tests;
#[cfg(test)]
mod slips;
