//! Tests of what `tacflow` does with its words and its streams. They stand in a crate of their own, which is nothing else: a crate with
//! tests is proved twice.
#![tactic(auto)]

#[cfg(test)]
mod answers;
#[cfg(test)]
mod case_tests;
#[cfg(test)]
mod cut_tests;
#[cfg(test)]
mod example_tests;
#[cfg(test)]
mod refusal_tests;
#[cfg(test)]
mod tacflow_tests;
