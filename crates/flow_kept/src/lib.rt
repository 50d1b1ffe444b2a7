//! A program that is kept with where its paths lead, so that its facts can be asked for again and again.
//!
//! `Kept` owns a program within limits, and its edges and paths in both directions, which take most of the time before an analysis is
//! solved. A graph borrows the program and is made anew for each call: it takes a third of what is saved. `Shared` is a `Kept` that several
//! own together.
#![tactic(auto)]

mod asking;
mod fault;
mod kept;
mod points;
mod shared;
mod table;

pub use fault::KeepFault;
pub use kept::Kept;
pub use shared::Shared;
pub use std::alloc::AllocError as OutOfMemory;
pub use table::{Ranges, put_facts};
