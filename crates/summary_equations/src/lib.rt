//! The summary equations of a gen-kill problem, and what joins their least solution to the paths.
//!
//! What is proved of the equations stands in `examples` and `laws`: there is nothing in these to run.
#![tactic(auto)]

pub mod examples;
pub mod laws;
