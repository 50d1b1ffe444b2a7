//! Points, edges and paths of a program's flow graph: their definitions, and the graph that answers for points, edges and bits.
#![tactic(auto)]

mod analysis;
mod directed_edges;
mod edge;
mod edge_list;
mod expression;
mod fault;
mod graph;
mod leads;
mod number_lists;
mod place;
mod points;
mod sites;
mod succ;
mod universes;
mod walk;

pub use analysis::{Analysis, Direction, Join};
pub use edge::Edge;
pub use expression::Expr;
pub use fault::GraphFault;
pub use graph::Graph;
pub use place::Place;
pub use std::alloc::AllocError as OutOfMemory;
pub use universes::target;
pub use walk::Walk;
