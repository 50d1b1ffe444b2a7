//! Tests of graphs and problems. They stand in a crate of their own, which is nothing else: a crate with tests is proved twice.
#![tactic(auto)]

#[cfg(test)]
mod answers;
#[cfg(test)]
mod graph_tests;
#[cfg(test)]
mod limit_tests;
#[cfg(test)]
mod problem_tests;
#[cfg(test)]
mod refusal_tests;
