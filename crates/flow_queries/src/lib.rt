//! Words of the analyses' sets that are asked for, and their answers: found in slices by workers that publish into shared words, or on the
//! calling thread.
#![tactic(auto)]

mod answers;
mod arrange;
mod calls;
mod direction;
mod packing;
mod queried;
mod queried_job;
mod query;
mod solved_words;
mod solvers;
mod splitting;

pub use answers::Answers;
pub use arrange::arranged_places;
pub use calls::{answer, answer_here};
pub use query::Query;
pub use solvers::GraphSolvers;
pub use std::alloc::AllocError as OutOfMemory;
