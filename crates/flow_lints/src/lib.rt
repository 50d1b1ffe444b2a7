//! What a linter tells of a program: the report's remarks, but for doubt that no execution meets, each procedure that is never called once, and
//! statements that are never reached by the first of them.
#![tactic(auto)]

mod doubt;
pub mod examples;
mod found;
mod leads;
mod lint;
mod lints;

pub use found::LintFindings;
pub use leads::leads_among;
pub use lint::{Lint, Linted, PlacedLint};
pub use lints::{linted, linted_here};
pub use std::alloc::AllocError as OutOfMemory;
