//! All that is wrong with a three-address text. How it is mended, `tac_hints` tells.
#![tactic(auto)]

mod faults;
pub mod laws;
mod lines;
pub mod names;
pub mod near;
pub mod places;
pub mod row;
pub mod slips;
mod told;

pub use faults::refusals;
pub use slips::{Bytes, Hint, Slip};
pub use told::MOST_FOUND;
