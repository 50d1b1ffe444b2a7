//! Tests of jobs and of analyses by teams of workers. They stand in a crate of their own, which is nothing else: a crate with
//! tests is proved twice.
#![tactic(auto)]

#[cfg(test)]
mod excerpt_tests;
#[cfg(test)]
mod job_tests;
#[cfg(test)]
mod overlap_tests;
#[cfg(test)]
mod questions;
#[cfg(test)]
mod refusal_tests;
#[cfg(test)]
mod std_thread_tests;
#[cfg(test)]
mod table_tests;
#[cfg(test)]
mod team_tests;
