//! The procedures that touch columns of a problem, what is known of the others, and paths through procedures.
#![tactic(auto)]

mod effects;
mod effort;
mod lists;
mod outside;
mod ranks;
mod region;
mod search;
mod spread;
mod touches;
mod wanted;
mod way;
mod ways;
mod whole;

pub use effects::{Does, boundary_of, put_words};
pub use effort::{allowance, is_too_much, making, solving};
pub use lists::{Lists, lists_of};
pub use outside::{called, leading};
pub use ranks::ranks_of;
pub use region::{numbers_below, points_by_procedure, put_points, put_touched};
pub use search::{Found, NONE, find, number_at, set_mark};
pub use spread::{are_local, are_many, are_marked, marked_count, size_of};
pub use std::alloc::AllocError as OutOfMemory;
pub use touches::touches_of;
pub use wanted::Wanted;
pub use way::{Branch, Hang, Hop, Way};
pub use ways::Ways;
pub use whole::all_ways;
