//! What a report asks of the analyses, in rounds, and the answers.
#![tactic(auto)]

mod busy_rounds;
mod busy_words;
mod chosen_bits;
mod operands;
mod report_answers;
mod report_queries;
mod report_rounds;

pub use busy_words::BusyWord;
pub use chosen_bits::{ChosenBits, WordRange};
pub use operands::{VariablesRead, assigned_variable, is_test, variables_read};
pub use report_answers::ReportAnswers;
pub use report_queries::PointQueries;
pub use report_rounds::{FirstRound, LaterRounds};
pub use std::alloc::AllocError as OutOfMemory;
