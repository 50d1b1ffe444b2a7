//! The solver of a gen-kill problem: the least solution of its summary equations, on a slice of its bits.
#![tactic(auto)]

mod bring;
mod effects;
mod enter;
mod group;
mod group_frame;
mod lanes;
mod reach;
mod routes;
mod slice_words;
mod solution;
mod solver;
mod summary;
mod take_words;
mod word_tables;

pub use routes::Routes;
pub use slice_words::SliceWords;
pub use solver::Solver;
pub use std::alloc::AllocError as OutOfMemory;
pub use take_words::TakeWords;
pub use word_tables::words_at_once;
