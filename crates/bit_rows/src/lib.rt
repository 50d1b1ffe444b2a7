//! Sets of bits kept in words, one set for each of many points, and the cutting of a universe of
//! bits into slices.
#![tactic(auto)]

mod all_rows;
mod kernels;
mod masks;
mod one_row;
mod slicing;

pub use all_rows::Rows;
pub use masks::{complement_within, low_ones, word_below, word_within, words_for};
pub use one_row::Row;
pub use slicing::{Cut, CutFault};
pub use std::alloc::AllocError as OutOfMemory;
