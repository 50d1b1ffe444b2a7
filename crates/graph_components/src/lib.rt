//! Which nodes of a graph lead to each other, exactly, in linear time.
#![tactic(auto)]

mod arc;
mod components;
mod inner;
mod levels;
mod lists;
mod reach;
mod walk;

pub use arc::Arc;
pub use components::components_of;
pub use std::alloc::AllocError as OutOfMemory;
