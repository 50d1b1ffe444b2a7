//! Laws of the definitions of `flow_graph`, each the clause of a function without a body, and worked examples of them.
#![tactic(auto)]

pub mod examples;
pub mod laws;
pub mod program_laws;
