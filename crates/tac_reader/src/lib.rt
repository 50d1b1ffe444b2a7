//! The language of `tacflow`: which text is which program.
//!
//! `specs/` says which bytes are which program, where the first fault of any other text stands, and
//! what a program's listing is; `docs/LANGUAGE.md` tells the same in words.
#![tactic(auto)]

mod build;
mod checks;
mod cursor;
pub mod laws;
mod occurrences;
mod procedure;
mod reader;
pub mod section;

pub use reader::{located_refusal, read, read_within};
pub use tac_lines::{OutOfMemory, ReadFault, Refusal, RefusalKind};
pub use tac_listing::{listing, write_binary_expression, write_unary_expression};
pub use tac_program::{Callees, Label, Limits, Op, Operand, Proc, Program, Span, Stmt, StmtKind};
