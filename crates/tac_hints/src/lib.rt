//! How what is wrong with a three-address text is mended.
#![tactic(auto)]

mod byte_hints;
pub mod examples;
mod line_hints;
mod name_hints;
mod text_hints;

pub use text_hints::hint;
