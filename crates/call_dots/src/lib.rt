//! A program's call graph as a picture for Graphviz, written in pieces to any sink.
#![tactic(auto)]

mod calls;
mod counts;
mod legend;
mod marks;
mod texts;

pub use calls::{CallEdge, NamedCall};
pub use marks::ProcedureMarks;
pub use std::alloc::AllocError as OutOfMemory;
pub use texts::CallDotText;
