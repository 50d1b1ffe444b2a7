//! What tests of teams share: gates that note what they are told, tables by so many workers, and tables as text.
#![tactic(auto)]

mod again;
mod gates;
mod tables;
mod texts;

pub use again::{answered_again, left_by};
pub use gates::{Ledger, Meeting, Recorder, alone, comes};
pub use tables::{BITS_OF_TWO_GROUPS, Cutting, WORKERS, table_by};
pub use texts::{
    RECURSIVE_REACH, lines, lines_before, printed, slices, slices_at, summed, sums, words,
};
