//! The rounds of Kildall's iteration in one procedure of a program, as lines of JSON.
#![tactic(auto)]

mod lines;
mod push;
mod sets;
mod step_text;

pub use std::alloc::AllocError as OutOfMemory;
pub use step_text::{MOST_POINTS, StepText, has_few_points};
