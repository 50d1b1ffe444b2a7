//! Parts of lines of JSON that several machines make: the text of each.
#![tactic(auto)]

mod objects;
mod parts;

pub use parts::{JsonPartText, json_part_here};
pub use std::alloc::AllocError as OutOfMemory;
