// The calls among the edges.
ghost use Rattle.std.specs.Prelude.{◌≡◌, IfOk, filter};
ghost use Rattle.flow_links.specs.Tables.EdgeLists.{is_call};

use crate::OutOfMemory;
use flow_graph::Edge;
use std::alloc::Global;

/// The calls among edges, in their order. They are few, so that what goes over the calls alone does well to
/// go over these.
pub(crate) fn calls_of(alloc: Global, edges: &[Edge]) -> Result<Vec<Edge>, OutOfMemory>
    ensures { IfOk result (λ calls. calls.items ≡ filter is_call edges.now) }
{
    let mut calls = Vec::new(alloc);
    for edge in edges {
        match *edge {
            Edge::Step { .. } => {}
            Edge::Call { .. } => calls.push(*edge)?,
            Edge::Ret { .. } => {}
        }
    }
    Ok(calls)
}
