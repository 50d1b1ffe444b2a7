//! A program's basic blocks with IN, OUT, gen and kill as a picture for Graphviz, written in pieces to any sink.
#![tactic(auto)]

mod block_bits;
mod block_marks;
mod block_set;
mod blocks;
mod edges;
mod exposed;
pub mod laws;
mod legend;
mod nodes;
mod picture;
mod transfers;

pub use picture::BlockDotText;
pub use std::alloc::AllocError as OutOfMemory;
