//! Texts of parts of a report, or of lines of JSON, that several machines made: what is read of them, and what they make.
#![tactic(auto)]

mod cuts;
pub mod examples;
mod fault;
mod form;
mod heading;
mod json_heading;
mod json_line;
mod line;
mod mark;
mod merges;
mod number;
mod read;
mod share;
mod shares;

pub use fault::{MergeFault, PartFault};
pub use form::PartForm;
pub use heading::MOST_PARTS;
pub use merges::merge;
pub use share::Share;
pub use std::alloc::AllocError as OutOfMemory;
