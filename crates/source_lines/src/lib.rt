//! The lines of a program's text as lines of JSON, and texts of lines that have them behind their first.
#![tactic(auto)]

pub mod laws;
mod lined;
mod source;

pub use lined::{LinedText, SourcedText};
pub use source::write_source;
