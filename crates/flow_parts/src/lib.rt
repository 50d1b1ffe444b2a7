//! Parts of a report that several machines make: the text of each, and that together they are the report.
#![tactic(auto)]

mod digests;
pub mod examples;
mod laws;
mod part_lines;
mod parts;

pub use digests::digest;
pub use laws::{merged_parts_are_the_report, merged_texts_are_the_report, parts_are_the_report};
pub use part_lines::is_remark_of_part;
pub use parts::{PartText, part_bits, part_here};
pub use std::alloc::AllocError as OutOfMemory;
