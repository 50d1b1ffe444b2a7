//! Tests of parts of reports. They stand in a crate of their own, which is nothing else: a crate with tests is proved twice.
#![tactic(auto)]

#[cfg(test)]
mod json_merge_tests;
#[cfg(test)]
mod json_tests;
#[cfg(test)]
mod merge_tests;
#[cfg(test)]
mod part_tests;
#[cfg(test)]
mod refusal_tests;
