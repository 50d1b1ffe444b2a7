//! The tables of a program's analyses, solved in slices by workers that publish into shared words.
//!
//! What is proved of tables stands in `laws`: there is nothing in it to run.
#![tactic(auto)]

mod complemented_words;
mod excerpts;
mod fault;
mod halves;
mod job;
pub mod laws;
mod plan;
mod posting;
mod sets;
mod table;
mod tables;
mod team;

pub use complemented_words::complement_mask;
pub use excerpts::table_at;
pub use fault::TeamFault;
pub use halves::{Half, side_by_side};
pub use job::Job;
pub use plan::SlicePlan;
pub use sets::GraphSets;
pub use slice_board::{Gate, JoinedGate, OpenGate, Team, are_in_range};
pub use std::alloc::AllocError as OutOfMemory;
pub use table::Table;
pub use tables::{Tables, table_of};
pub use team::analyse;
