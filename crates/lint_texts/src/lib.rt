//! What a linter writes of one file.
#![tactic(auto)]

pub mod examples;
mod file;
mod kinds;
mod lines;
mod lint_text;
mod notes;
mod starts;
mod telling;
mod uses;
mod ways;
mod words;

pub use file::File;
pub use kinds::{Kinds, kind_name};
pub use lines::LintLines;
pub use lint_styles::Style;
pub use lint_text::{LintText, lint_text_here};
pub use notes::turn_point;
pub use starts::{Start, Starts};
pub use std::alloc::AllocError as OutOfMemory;
pub use telling::Telling;
pub use uses::{Use, Uses, unset_variable};
pub use ways::Way;
pub use words::{later_words, turn_words, words_of};
