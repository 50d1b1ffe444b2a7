//! Searches for ways that bring a bit to points, and paths as lists of hops. `flow_witnesses` answers by them why a bit is in a set.
#![tactic(auto)]

pub mod claim;
pub mod examples;
pub mod frame;
pub mod hop;
pub mod laws;
pub mod mark;
pub mod marks;
pub mod point_bit;
pub mod run;
pub mod scope;
pub mod search;
pub mod trail;
mod visit;
pub mod ways;

pub use hop::{Effect, Hop};
pub use point_bit::PointBit;
pub use std::alloc::AllocError as OutOfMemory;
pub use ways::Ways;
