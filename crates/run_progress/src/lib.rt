//! How far a program's work is, told on a terminal.
#![tactic(auto)]

mod progress;
mod terminal;

pub use progress::{Count, Progress, progress_words};
pub use std::alloc::AllocError as OutOfMemory;
pub use terminal::Terminal;
