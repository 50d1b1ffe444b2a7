//! The listing of a program, and its statements as they stand between quotes.
#![tactic(auto)]

mod listings;
mod scope;

pub use listings::{listing, write_binary_expression, write_unary_expression};
pub use scope::{Scope, write_escaped_number};
pub use std::alloc::AllocError as OutOfMemory;
