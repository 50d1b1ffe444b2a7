//! A program's flow graph with its facts as lines of JSON, written in pieces to any sink.
#![tactic(auto)]

mod changes;
mod differences;
mod json;
mod outlines;

pub use changes::{JsonChangesText, write_differences, write_named_program};
pub use json::{JsonText, write_chosen_head, write_end, write_remark_head, write_sets};
pub use outlines::{PointOutline, write_bare_point, write_program};
pub use std::alloc::AllocError as OutOfMemory;
