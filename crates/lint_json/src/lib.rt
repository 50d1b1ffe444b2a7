//! What a linter tells of a file, for tools: lines of JSON.
#![tactic(auto)]

mod ends;
mod errors;
pub mod examples;
mod notes;
mod remarks;
mod texts;

pub use std::alloc::AllocError as OutOfMemory;
pub use texts::{lint_json, lint_json_here, refusal_json};
