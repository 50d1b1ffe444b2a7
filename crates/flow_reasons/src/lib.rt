//! What stands around a remark: statements that are met next behind a point or last before it, variables that hold a value, where no path
//! leads further, and why a point is doubtful.
#![tactic(auto)]

mod doubts;
mod holders;
mod marks;
mod met;
mod reached;
mod reasons;

pub use reasons::Reasons;
pub use std::alloc::AllocError as OutOfMemory;
