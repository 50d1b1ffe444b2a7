//! What the words of `tacview`'s command line ask for: which text, of which program, by how many workers.
#![tactic(auto)]

mod facts;
mod formats;
mod options;
mod steps;
mod words;

pub use options::{Asked, Format, Options};
