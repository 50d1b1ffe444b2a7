//! Tests of what `tacview` does with its words and its streams. They stand in a crate of their own, which is nothing else: a crate with
//! tests is proved twice.
#![tactic(auto)]

#[cfg(test)]
mod call_tests;
#[cfg(test)]
mod change_tests;
#[cfg(test)]
mod limit_tests;
#[cfg(test)]
mod part_tests;
#[cfg(test)]
mod path_tests;
#[cfg(test)]
mod picture_tests;
#[cfg(test)]
mod progress_tests;
#[cfg(test)]
mod refusal_tests;
#[cfg(test)]
mod source_tests;
#[cfg(test)]
mod step_tests;
#[cfg(test)]
mod tacview_tests;
#[cfg(test)]
mod word_tests;
