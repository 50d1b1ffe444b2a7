//! Which expressions may be very busy at a point, by one path from it.
#![tactic(auto)]

mod bound;
mod busy_bounds;
mod finding;
mod sets;
mod steps;
mod words;

pub use busy_bounds::BusyBounds;
pub use std::alloc::AllocError as OutOfMemory;
