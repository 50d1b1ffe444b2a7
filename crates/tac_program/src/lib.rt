//! What a program is: its types, and what holds of every program.
//!
//! A program is made by `read` of `tac_reader`; whatever works on programs needs this crate alone. `specs/` has the definitions.
#![tactic(auto)]

mod limits;
mod name_hashers;
mod name_keys;
mod names;
mod program;

pub use limits::Limits;
pub use name_hashers::NameSeeds;
pub use names::NameTable;
pub use program::{Callees, Label, Op, Operand, Proc, Program, Span, Stmt, StmtKind};
pub use std::alloc::AllocError as OutOfMemory;
