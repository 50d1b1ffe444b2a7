// The edges of a graph, in the direction of an analysis.

ghost use Rattle.std.specs.Prelude.{◌≡◌, ◌++◌, IfOk, OnOk, map};
ghost use Rattle.flow_graph.specs.Edges.{edges as edges_of};
ghost use Rattle.flow_graph.specs.Problems.{may_shape};
ghost use Rattle.flow_graph.specs.Reversals.{reversed_edge};

use crate::OutOfMemory;
use crate::analysis::{Analysis, Direction};
use crate::edge::Edge;
use crate::edge_list::EdgeList;
use crate::graph::Graph;
use crate::walk::Walk;
use std::alloc::Global;

/// An edge reversed: a call becomes a return, and a return a call.
fn reversed(edge: Edge) -> Edge
    ensures { result ≡ reversed_edge edge }
{
    match edge {
        Edge::Step { from, to } => Edge::Step { from: to, to: from },
        Edge::Call { site, from, to } => Edge::Ret {
            site,
            from: to,
            to: from,
        },
        Edge::Ret { site, from, to } => Edge::Call {
            site,
            from: to,
            to: from,
        },
    }
}

/// The edges of a problem that goes backwards: each is reversed as it is put.
#[derive(Drop)]
struct ReversedEdges {
    edges: Vec<Edge>,
}

impl EdgeList for ReversedEdges {
    ghost listed = { λ list. map reversed_edge list.edges.items };

    fn put_edge(&mut self, edge: Edge) -> Result<(), OutOfMemory> {
        self.edges.push(reversed(edge))?;
        Ok(())
    }
}

/// Puts all edges of a graph last, in the order of the points that they leave in it.
fn put_all<E: EdgeList>(edges: &mut E, graph: &Graph<'_>) -> Result<(), OutOfMemory>
    ensures { OnOk result (E.listed edges.new ≡ E.listed edges.old ++ edges_of graph.now) }
{
    let mut walk = Walk::new(graph.program());
    for point in 0..graph.points() {
        let (stmt, next) = walk.step();
        graph.put_succ(edges, point, stmt)?;
        walk = next;
    }
    Ok(())
}

impl Graph<'_> {
    /// All edges, in the order of the points that they leave in the graph, as an analysis follows them: each reversed where it goes
    /// backwards. Fails only where memory runs out.
    pub fn directed_edges(
        &self,
        alloc: Global,
        analysis: Analysis,
    ) -> Result<Vec<Edge>, OutOfMemory>
        ensures { IfOk result (λ edges. edges.items ≡ (may_shape self.now analysis).edges) }
    {
        // Most points are left by one edge. With as many places again for what tests and calls add, the list does not move.
        let mut edges = Vec::with_capacity(alloc, self.points() as usize * 2)?;
        match analysis.direction() {
            Direction::Forward => {
                put_all(&mut edges, self)?;
                Ok(edges)
            }
            Direction::Backward => {
                let mut list = ReversedEdges { edges };
                put_all(&mut list, self)?;
                Ok(list.edges)
            }
        }
    }
}
