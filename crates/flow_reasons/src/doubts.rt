// Why a point is doubtful.
ghost use Rattle.std.specs.Prelude.{◌≡◌, ◌<◌, All, IfOk, MatchOption, OnOk, false, fold, length, true};
ghost use Rattle.flow_graph.specs.Analyses.{shape_of};
ghost use Rattle.flow_graph.specs.Edges.{edges_from};
ghost use Rattle.flow_graph.specs.Paths.{target_of};
ghost use Rattle.flow_graph.specs.Points.{point_count};
ghost use Rattle.flow_graph.specs.Runs.{IsDoubtful};
ghost use Rattle.flow_graph.specs.code.Searching.{search_of, with_known};
ghost use Rattle.flow_reasons.specs.Doubts.{IsDoubtOrigin};

use crate::OutOfMemory;
use flow_graph::{Edge, Graph};
use flow_why::Ways;
use std::alloc::Global;

// The point to which an edge leads.
fn end_of(edge: Edge) -> u32
    ensures { result ≡ target_of edge }
{
    match edge {
        Edge::Step { to, .. } => to,
        Edge::Call { to, .. } => to,
        Edge::Ret { to, .. } => to,
    }
}

// Makes a point known; where it was not, it is put to the work.
fn know_point(known: &mut Vec<bool>, work: &mut Vec<u32>, point: u32) -> Result<(), OutOfMemory>
    requires { point < length known.old.items }
    ensures { OnOk result (search_of known.new.items work.new.items ≡ with_known (search_of known.old.items work.old.items) point) }
{
    let was_known = known[point as usize];
    known[point as usize] = true;
    if !was_known {
        work.push(point)?;
    }
    Ok(())
}

// Makes the points known to which some edges lead.
fn know_targets(
    known: &mut Vec<bool>,
    work: &mut Vec<u32>,
    edges: &[Edge],
) -> Result<(), OutOfMemory>
    requires { All (λ edge. target_of edge < length known.old.items) edges.now }
    ensures { OnOk result (search_of known.new.items work.new.items
        ≡ fold (λ search edge. with_known search (target_of edge)) (search_of known.old.items work.old.items) edges.now) }
{
    for edge in edges {
        know_point(known, work, end_of(*edge))?;
    }
    Ok(())
}

// Makes the points known to which the edges out of a point lead.
fn know_next(
    alloc: Global,
    graph: &Graph<'_>,
    known: &mut Vec<bool>,
    work: &mut Vec<u32>,
    point: u32,
) -> Result<(), OutOfMemory>
    requires point { point < point_count graph.now }
    requires known { length known.old.items ≡ point_count graph.now }
    ensures { OnOk result (search_of known.new.items work.new.items
        ≡ fold (λ search edge. with_known search (target_of edge)) (search_of known.old.items work.old.items) (edges_from graph.now point)) }
{
    // Its contract tells that the program is sound.
    let _ = graph.points();
    let edges = graph.succ(alloc, point)?;
    know_targets(known, work, edges.as_slice())
}

/// A point without a backward valid path to which some path from a point leads, if there is one. Points are looked at breadth first.
pub(crate) fn doubt_origin(
    alloc: Global,
    graph: &Graph<'_>,
    ways: &Ways,
    point: u32,
) -> Result<Option<u32>, OutOfMemory>
    requires ways { ways.now.linked ≡ record { program = graph.now; backward = true } }
    requires point { point < point_count graph.now }
    ensures { IfOk result (λ found. MatchOption found (¬ (IsDoubtful (shape_of graph.now) point)) (λ origin. IsDoubtOrigin graph.now point origin)) }
{
    let mut known = vec![in alloc; false; graph.points() as usize]?;
    let mut work = Vec::new(alloc);
    know_point(&mut known, &mut work, point)?;
    let mut next = 0;
    while next < work.len() {
        let at = work[next];
        if !ways.has_path(at) {
            return Ok(Some(at));
        }
        know_next(alloc, graph, &mut known, &mut work, at)?;
        next += 1;
    }
    Ok(None)
}
