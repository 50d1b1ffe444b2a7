//! Doubt on executions, what executions read, and laws of both: each law is the clause of a function without a body.
#![tactic(auto)]

pub mod examples;
pub mod laws;
