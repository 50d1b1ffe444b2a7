//! Gen and kill of the four analyses: the forward problem over some path by which each is solved.
#![tactic(auto)]

mod bit_table;
mod columns;
mod effect;
mod effects;
mod marks;
mod problem;
mod words;

pub use bit_table::BitTable;
pub use effect::Effect;
pub use marks::marked_numbers;
pub use problem::Problem;
pub use std::alloc::AllocError as OutOfMemory;
