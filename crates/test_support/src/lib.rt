//! What tests of several crates share: programs with what is known of them, calls that are refused memory, and a reader and a writer that
//! fail.
#![tactic(auto)]

pub mod failing_streams;
pub mod refusal_probes;
pub mod worked_programs;
