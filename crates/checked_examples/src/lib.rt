//! Worked programs by their texts: what the definitions say of them, checked by computing it. There is nothing in it to run.
#![tactic(auto)]

pub mod line_laws;
pub mod program_examples;
pub mod reader_examples;
pub mod text_examples;
pub mod view_examples;
