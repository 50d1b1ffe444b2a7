//! The rounds of Kildall's iteration in one procedure of a program.
#![tactic(auto)]

mod column;
mod columns;
mod frame;
mod laws;
mod order;
mod point_range;
mod sources;
mod steps;

pub use columns::Columns;
pub use frame::Frame;
pub use laws::rounds_end_at_table;
pub use point_range::PointRange;
pub use std::alloc::AllocError as OutOfMemory;
