//! What `tacview` does with its options and its streams: a program's flow graph with what holds at its points, for Graphviz or as
//! lines of JSON, the rounds in which its sets come about, its call graph, or a page around these, or the report on it, whole or in
//! parts; and the report that its parts make.
#![tactic(auto)]

mod counted;
mod lines;
mod merges;
mod rounds;
mod runs;
mod sizes;
mod views;

pub use counted::Counted;
pub use lines::line_of;
pub use merges::{file_line, files_to_merge, merge_files};
pub use runs::run;
pub use sizes::{SLOW_PAGE, calls_words, is_large, large_page_line, size_words};
