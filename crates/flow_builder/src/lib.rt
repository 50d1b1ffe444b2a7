//! Programs that are built without a text: procedures, statements and names as arrays of numbers and bytes, checked as the reader checks a text.
#![tactic(auto)]

mod arrays;
mod building;
mod fault;
mod labels;
mod names;
mod operands;
mod procedure;
mod sound;
mod statements;

pub use arrays::{Arrays, BuiltNames, BuiltOperand, BuiltProcedure, BuiltStatement};
pub use building::build;
pub use fault::BuildFault;
pub use std::alloc::AllocError as OutOfMemory;
