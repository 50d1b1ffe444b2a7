//! What `tacflow` does with its words and its streams: a program's listing, the table of an analysis, or a report.
#![tactic(auto)]

mod options;
mod output;
mod runs;
mod words;

pub use options::{Options, Show};
pub use runs::run;
