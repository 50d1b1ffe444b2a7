//! A page of HTML around lines of JSON: a fixed frame with a script, which shows what the lines tell.
#![tactic(auto)]

mod body;
mod frame;
mod page;
mod script_facts;
mod script_keys;
mod script_layout;
mod script_lines;
mod script_panes;
mod script_rows;
mod script_steps;
mod signs;
mod style;
mod title;

pub use page::PageText;
pub use std::alloc::AllocError as OutOfMemory;
