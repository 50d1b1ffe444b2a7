//! Paths that show why a variable may be used before it is set, and what stands around other remarks, in the texts of `tacview`.
#![tactic(auto)]

mod around;
mod arounds;
mod asked_use;
mod doubts;
mod facts;
mod hop_objects;
mod json_paths;
mod path_picture;
mod set_fields;
mod shown;
mod surroundings;
mod unset_path;
mod unset_paths;

pub use json_paths::JsonPathsText;
pub use path_picture::PathDotText;
pub use std::alloc::AllocError as OutOfMemory;
