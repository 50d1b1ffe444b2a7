//! A board on which workers meet: slices of a universe of bits are drawn from it, each once, results
//! are published on it as shared words, and it closes where every slice is finished. A team of workers
//! draws slices until none is left, solves and posts them, whatever it is that the board wants.
//!
//! No call of the board waits for another thread. Each step on the shared words is one atomic instruction.
#![tactic(auto)]

mod filling;
mod gate;
mod joined_gate;
mod pass;
mod plays;
mod posted_words;
mod rule;
mod slice_job;
mod solve;
mod team;
mod view;
mod word_board;
mod workers;

pub use gate::{Gate, OpenGate};
pub use joined_gate::JoinedGate;
pub use pass::Pass;
pub use posted_words::PostedWords;
pub use rule::Wanted;
pub use slice_job::SliceJob;
pub use solve::Solve;
pub use std::alloc::AllocError as OutOfMemory;
pub use team::{Team, are_in_range};
pub use view::{About, Count, LoggedWord};
pub use word_board::{Unfinished, WordBoard};
pub use workers::{run_here, run_workers};
