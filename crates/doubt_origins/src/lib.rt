//! For each point of a program where its doubt comes from.
#![tactic(auto)]

mod endless;
mod origins;
mod sources;
mod tracing;

pub use origins::{doubt_origins, origin_at};
pub use std::alloc::AllocError as OutOfMemory;
