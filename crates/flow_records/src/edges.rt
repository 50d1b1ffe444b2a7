// The edges of a program's points, as numbers.

ghost use Rattle.std.specs.Prelude.{◌≡◌, ◌++◌, length, map, IfErr, IfOk, OnOk};
ghost use Rattle.flow_kept.specs.Facts.{ArePointsOf};
ghost use Rattle.flow_records.specs.Edges.{IsEdgesFault, edge_part, edges_between as edges_in};
ghost use Rattle.flow_records.specs.Rooms.{HoldsList, IsListKept};
ghost use Rattle.flow_records.specs.Numbers.{end_of};

use crate::calls::find_end;
use crate::fault::Fault;
use crate::rooms::put_list;
use flow_graph::{Edge, Graph, OutOfMemory};
use flow_kept::Kept;
use std::alloc::Global;

/// An edge: its kind, 0 for a step, 1 for a call and 2 for a return, the point of the call to which a call or a return belongs, or
/// 4294967295 for a step, and the two points that it joins.
#[repr(C)]
#[derive(Clone, Copy)]
pub struct NumberedEdge {
    pub kind: u32,
    pub site: u32,
    pub from: u32,
    pub to: u32,
}

fn edge_of(edge: Edge) -> NumberedEdge
    ensures { result ≡ edge_part edge }
{
    match edge {
        Edge::Step { from, to } => NumberedEdge {
            kind: 0,
            site: u32::MAX,
            from,
            to,
        },
        Edge::Call { site, from, to } => NumberedEdge {
            kind: 1,
            site,
            from,
            to,
        },
        Edge::Ret { site, from, to } => NumberedEdge {
            kind: 2,
            site,
            from,
            to,
        },
    }
}

// Puts edges last.
fn put_edges(edges: &mut Vec<NumberedEdge>, found: &[Edge]) -> Result<(), OutOfMemory>
    ensures { OnOk result (edges.new.items ≡ edges.old.items ++ map edge_part found.now) }
{
    for edge in found {
        edges.push(edge_of(*edge))?;
    }
    Ok(())
}

// The edges out of the points from one on and before another.
fn edges_between(
    alloc: Global,
    graph: &Graph<'_>,
    from: u32,
    until: u32,
) -> Result<Vec<NumberedEdge>, OutOfMemory>
    requires { ArePointsOf graph.now from until }
    ensures { IfOk result (λ edges. edges.items ≡ edges_in graph.now from until) }
{
    let mut edges = Vec::new(alloc);
    for point in from..until {
        let found = graph.succ(alloc, point)?;
        put_edges(&mut edges, found.as_slice())?;
    }
    Ok(edges)
}

/// The edges out of a range of points of a kept program, and how many they are.
pub fn edges_of_kept(
    alloc: Global,
    kept: &Kept,
    points: (u32, u32),
    edges: &mut [NumberedEdge],
    count: &mut usize,
) -> Result<(), Fault>
    ensures held { OnOk result
        (HoldsList (λ all. all ≡ edges_in kept.now.program points.0 (end_of kept.now.program points.1)) edges.old edges.new count.new) }
    ensures kept { IfErr result (IsListKept edges.old edges.new count.old count.new) }
    ensures fault { IfErr result (IsEdgesFault points.0 points.1 (length edges.old) count.new kept.now.program) }
{
    let graph = kept.graph(alloc)?;
    let until = find_end(&graph, points.1);
    if until < points.0 || graph.points() < until {
        return Err(Fault::BadRange);
    }
    let all = edges_between(alloc, &graph, points.0, until)?;
    if put_list(all.as_slice(), edges, count) {
        Ok(())
    } else {
        Err(Fault::BadRoom)
    }
}
