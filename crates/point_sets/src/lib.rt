//! The sets of an analysis before a statement and behind it, with the dummy definitions or without, written to any sink.
#![tactic(auto)]

mod behind;
mod change;
mod lines;
mod point_set;
mod side;

pub use behind::{changes, is_made_at, is_number, names_variable, target_of, writes};
pub use change::{Change, came_text};
pub use lines::Line;
pub use point_set::{PointSet, is_bit_shown, write_point_set};
pub use side::{Side, calls_at, has_behind, side_text};
