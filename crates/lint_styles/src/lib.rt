//! How what is told is shown: kinds in colours, and the line of the source behind it.
#![tactic(auto)]

mod bytes;
mod lines;
mod source;
mod style;

pub use bytes::{shown_bytes, write_shown, write_size};
pub use lines::{behind_lines, column_of, first_line};
pub use source::{write_source_at, write_source_of};
pub use std::alloc::AllocError as OutOfMemory;
pub use style::{Hue, Style, write_painted};
