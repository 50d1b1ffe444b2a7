// The points from which edges lead to each point.

ghost use Rattle.std.specs.Prelude.{◌≡◌, ◌<◌, [], All, IfOk, OnOk, fold, length};
ghost use Rattle.flow_graph.specs.code.NumberLists.{AreLists, contents, with_last};
ghost use Rattle.flow_graph.specs.code.Searching.{AreSources};
ghost use Rattle.flow_graph.specs.Paths.{target_of};

use crate::OutOfMemory;
use flow_graph::{Edge, Graph};
use smallvec::SmallVec;
use std::alloc::Global;

/// A list of points; a short one takes no block of its own.
pub(crate) type PointList = SmallVec<u32, 4, Global>;

// So many empty lists.
fn empty_lists(alloc: Global, count: usize) -> Result<Vec<PointList>, OutOfMemory>
    ensures { IfOk result (λ lists. AreLists (contents lists.items) count (λ _. [])) }
{
    let mut lists = Vec::with_capacity(alloc, count)?;
    for _ in 0..count {
        lists.push(PointList::new(alloc))?;
    }
    Ok(lists)
}

// Puts a point last in the list of another.
fn put_last(lists: &mut Vec<PointList>, index: u32, point: u32) -> Result<(), OutOfMemory>
    requires { index < length (contents lists.old.items) }
    ensures { OnOk result (contents lists.new.items ≡ with_last (contents lists.old.items) index point) }
{
    let list = &mut lists[index as usize];
    list.push(point)?;
    Ok(())
}

// The point to which an edge leads.
fn target(edge: Edge) -> u32
    ensures { result ≡ target_of edge }
{
    match edge {
        Edge::Step { to, .. } => to,
        Edge::Call { to, .. } => to,
        Edge::Ret { to, .. } => to,
    }
}

// Puts the point that some edges leave last in the list of each point to which one leads.
fn put_source(lists: &mut Vec<PointList>, edges: &[Edge], source: u32) -> Result<(), OutOfMemory>
    requires { All (λ edge. target_of edge < length (contents lists.old.items)) edges.now }
    ensures { OnOk result
        (contents lists.new.items ≡ fold (λ known edge. with_last known (target_of edge) source) (contents lists.old.items) edges.now) }
{
    for edge in edges {
        put_last(lists, target(*edge), source)?;
    }
    Ok(())
}

/// For each point the points from which an edge leads to it.
pub(crate) fn sources(alloc: Global, graph: &Graph<'_>) -> Result<Vec<PointList>, OutOfMemory>
    ensures { IfOk result (λ lists. AreSources graph.now (contents lists.items)) }
{
    let count = graph.points();
    let mut lists = empty_lists(alloc, count as usize)?;
    for point in 0..count {
        let edges = graph.succ(alloc, point)?;
        put_source(&mut lists, edges.as_slice(), point)?;
    }
    Ok(lists)
}
