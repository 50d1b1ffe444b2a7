//! Bounds of the bits of an analysis at points, for 64 columns at a time.
#![tactic(auto)]

mod answers;
mod asked;
mod bounding;
mod clauses;
mod columns;
mod frame;
mod group;
mod rounds;
mod rule;
mod settled;
mod settlement;
mod settling;
mod shared;
mod sparing;
mod tables;
mod way_words;
mod words;

pub use asked::{Ask, Told};
pub use settlement::settle;
pub use std::alloc::AllocError as OutOfMemory;
