//! Why a bit is in the set of a point: a path that shows it, as a list of hops.
#![tactic(auto)]

mod answers;
mod near;
mod point_why;
mod space;
mod why;

pub use near::witness_at;
pub use point_why::PointWhy;
pub use space::Space;
pub use std::alloc::AllocError as OutOfMemory;
pub use why::Why;
