//! The edges of a problem by point, and the orders in which a solver takes points and procedures.
#![tactic(auto)]

mod call_edges;
mod call_walk;
mod edges;
mod exits;
mod keys;
mod layout;
mod leading;
mod link;
mod links;
mod list_kind;
mod lists;
mod orders;
mod turns;
mod values;
mod walk;

pub use edges::{has_call, has_site, has_step};
pub use link::{CallLink, SiteLink};
pub use links::Links;
pub use std::alloc::AllocError as OutOfMemory;
