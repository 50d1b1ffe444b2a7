//! The report on a program: what is found of it, its remarks as data and its text, written in pieces to any sink.
#![tactic(auto)]

mod doubt;
mod findings;
mod listed;
mod remark;
mod remark_form;
mod remarks;
mod reports;
mod unset;

pub use findings::Findings;
pub use listed::{PlacedRemark, remarks_here};
pub use remark::Remark;
pub use remark_form::{ChosenForm, RemarkForm};
pub use remarks::{words_before_name, words_behind_name};
pub use reports::{ReportText, report_here};
pub use std::alloc::AllocError as OutOfMemory;
pub use unset::UnsetUse;
