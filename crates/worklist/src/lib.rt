//! What a solver by changed points keeps: the points that are still to be visited, in an order, and places by key.
#![tactic(auto)]

mod groups;
mod order;
mod worklist;

pub use groups::{Groups, group};
pub use order::Order;
pub use std::alloc::AllocError as OutOfMemory;
pub use worklist::Worklist;
