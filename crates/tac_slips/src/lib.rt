//! Words and signs that other languages have, where a three-address line does not go on.
#![tactic(auto)]

mod slips;

pub use slips::{first_slip, later_slip, second_slip};
