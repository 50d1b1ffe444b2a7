//! Bounds of the least solution of the summary equations, by which a bit is answered at a point without solving the equations for it.
//!
//! What is proved of bounds stands in `examples` and `laws`: there is nothing in these to run.
#![tactic(auto)]

pub mod examples;
pub mod laws;
