//! What programs over the analyses share: a run from the bytes of a source to the bytes of a sink, its faults and their lines, and
//! the options that say how tables are found.
#![tactic(auto)]

mod answer;
mod arguments;
mod fault;
mod lists;
mod output;
mod parts;
mod reports;
mod runs;
mod streams;

pub use arguments::{
    cut_option, has_flag, kind_word, limits_by, limits_option, number_of, sizes, text_found,
    workers_option,
};
pub use fault::{Fault, fault_line, line_with};
pub use lists::has_word;
pub use output::Output;
pub use parts::{graph_of, pull_text, push_text};
pub use reports::push_report;
pub use runs::run;
pub use std::alloc::AllocError as OutOfMemory;
pub use streams::{tell_line, tell_no_words, tell_words};
