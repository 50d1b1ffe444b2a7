//! Tests of the solver, and of links and orders of points on which it stands. They stand in a crate of their own, which is nothing else: a
//! crate with tests is proved twice.
#![tactic(auto)]

#[cfg(test)]
mod large_table_tests;
#[cfg(test)]
mod refusal_tests;
#[cfg(test)]
mod solver_tests;
#[cfg(test)]
mod table_tests;
#[cfg(test)]
mod tables;
#[cfg(test)]
mod worklist_refusal_tests;
