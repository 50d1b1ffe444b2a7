//! Why a bit is in the set of a point, and what stands around a remark, as records of numbers in room of a caller's.
//!
//! A program is one that is kept (`flow_kept`). Each function answers a [`Fault`] where there is no answer, and then has written nothing, but
//! for the size of a list for which there is too little room:
//!
//! - `BadAnalysis`, where a number is of no analysis; `BadRange`, where a point or bit is not there, or a remark is none.
//! - `BadRoom`, where the room is too small for a list. `OutOfMemory` only where memory was refused.
#![tactic(auto)]

mod around;
mod why;
mod whys;

pub use around::{NumberedNearby, around_of_kept, doubt_origin_of_kept};
pub use flow_records::Fault;
pub use why::{NumberedFact, NumberedHop, why_of_kept};
pub use whys::{NumberedWhy, whys_of_kept};
