//! What `taclint` does with its words and with a file: the lints of a program, or all that is wrong with a text.
#![tactic(auto)]

mod failures;
mod kinds;
mod missing;
mod options;
mod runs;
mod told;
mod words;

pub use failures::failed_line;
pub use missing::missing_line;
pub use options::{Coloring, Form, Options};
pub use runs::{Crew, Request, Wish, run};
pub use std::alloc::AllocError as OutOfMemory;
pub use told::Told;
