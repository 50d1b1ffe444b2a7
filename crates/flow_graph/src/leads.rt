// Which points lead to marked ones.

ghost use Rattle.std.specs.Prelude.{◌≡◌, ◌<◌, false, length, fold, get_or, All, IfOk, OnOk};
ghost use Rattle.std.specs.List.{filter, range_with_len};
ghost use Rattle.flow_graph.specs.Leading.{TellLeading};
ghost use Rattle.flow_graph.specs.code.Searching.{AreSources, search_of, with_known};
ghost use Rattle.flow_graph.specs.code.NumberLists.{contents, with_last};
ghost use Rattle.flow_graph.specs.Paths.{target_of};
ghost use Rattle.flow_graph.specs.Points.{point_count};

use crate::OutOfMemory;
use crate::edge::Edge;
use crate::graph::Graph;
use crate::number_lists::{NumberList, empty_lists, put_last};
use std::alloc::Global;

/// The point to which an edge leads.
fn target(edge: Edge) -> u32
    ensures { result ≡ target_of edge }
{
    match edge {
        Edge::Step { to, .. } => to,
        Edge::Call { to, .. } => to,
        Edge::Ret { to, .. } => to,
    }
}

/// Puts the point that some edges leave last in the list of each point to which one leads.
fn put_source(lists: &mut Vec<NumberList>, edges: &[Edge], source: u32) -> Result<(), OutOfMemory>
    requires { All (λ edge. target_of edge < length (contents lists.old.items)) edges.now }
    ensures { OnOk result
        (contents lists.new.items ≡ fold (λ known edge. with_last known (target_of edge) source) (contents lists.old.items) edges.now) }
{
    for edge in edges {
        put_last(lists, target(*edge), source)?;
    }
    Ok(())
}

/// For each point the points from which an edge leads to it.
fn sources(alloc: Global, graph: &Graph<'_>) -> Result<Vec<NumberList>, OutOfMemory>
    ensures { IfOk result (λ lists. AreSources graph.now (contents lists.items)) }
{
    let count = graph.points();
    let mut lists = empty_lists(alloc, count as usize)?;
    for point in 0..count {
        let edges = graph.succ(alloc, point)?;
        put_source(&mut lists, edges.as_slice(), point)?;
    }
    Ok(lists)
}

/// The marked ones of so many points.
fn marked_points(alloc: Global, marked: &[bool], count: u32) -> Result<Vec<u32>, OutOfMemory>
    requires { length marked.now ≡ count }
    ensures { IfOk result (λ points. points.items ≡ filter (λ point. get_or marked.now point false) (range_with_len 0 (length marked.now))) }
{
    let mut points = Vec::new(alloc);
    for point in 0..count {
        if marked[point as usize] {
            points.push(point)?;
        }
    }
    Ok(points)
}

/// Makes a point known; where it was not, it is put to the work.
fn know_point(known: &mut Vec<bool>, work: &mut Vec<u32>, point: u32) -> Result<(), OutOfMemory>
    requires { point < length known.old.items }
    ensures { OnOk result (search_of known.new.items work.new.items ≡ with_known (search_of known.old.items work.old.items) point) }
{
    let was_known = known[point as usize];
    known[point as usize] = true;
    if !was_known {
        work.push(point)?;
    }
    Ok(())
}

/// Makes each of some points known.
fn know_all(known: &mut Vec<bool>, work: &mut Vec<u32>, points: &[u32]) -> Result<(), OutOfMemory>
    requires { All (λ point. point < length known.old.items) points.now }
    ensures { OnOk result (search_of known.new.items work.new.items ≡ fold with_known (search_of known.old.items work.old.items) points.now) }
{
    for point in points {
        know_point(known, work, *point)?;
    }
    Ok(())
}

impl<'p> Graph<'p> {
    /// For each point, whether some path from it ends at a marked point; the empty path leads from a point to itself.
    ///
    /// It takes one truth value for each point, and goes once over the edges, backwards from the marked points.
    pub fn leads_to(&self, alloc: Global, marked: &[bool]) -> Result<Vec<bool>, OutOfMemory>
        requires { length marked.now ≡ point_count self.now }
        ensures { IfOk result (λ answers. TellLeading self.now marked.now answers.items) }
    {
        let lists = sources(alloc, self)?;
        let mut known = Vec::from_slice(alloc, marked)?;
        let mut work = marked_points(alloc, marked, self.points())?;
        while let Some(point) = work.pop() {
            know_all(&mut known, &mut work, lists[point as usize].as_slice())?;
        }
        Ok(known)
    }
}
