//! Laws of parts of a text's report: each law is the clause of a function without a body.
#![tactic(auto)]

pub mod laws;
