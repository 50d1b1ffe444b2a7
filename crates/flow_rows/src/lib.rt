//! Rows of all points, and what is read out of whole tables, for callers who want them: no program uses it. The solution of a problem as rows,
//! a board that closes into rows, and the answers and the report that tables give.
#![tactic(auto)]

mod board;
mod filling;
mod rows;
mod table_answers;
mod table_reports;

pub use board::Board;
pub use rows::{solve, solve_counted, solve_slice};
pub use std::alloc::AllocError as OutOfMemory;
pub use table_answers::answers_of_tables;
pub use table_reports::{report, report_answers_of_tables};
