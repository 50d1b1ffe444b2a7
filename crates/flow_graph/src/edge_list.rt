// Lists of edges that are filled one edge after the other.

ghost use Rattle.std.specs.Prelude.{◌≡◌, [], ◌∷◌, ◌++◌, List, OnOk};
ghost use Rattle.flow_graph.specs.declared.edge.Edge.{Edge as AnEdge};

use crate::OutOfMemory;
use crate::edge::Edge;
use smallvec::SmallVec;
use std::alloc::Global;

/// A list of edges, so that the edges out of a statement are put into each kind of list by one function.
pub(crate) trait EdgeList {
    ghost listed: { Self → List AnEdge };

    /// Puts an edge last.
    fn put_edge(&mut self, edge: Edge) -> Result<(), OutOfMemory>
        ensures { OnOk result (listed self.new ≡ listed self.old ++ edge ∷ []) };
}

impl EdgeList for SmallVec<Edge, 2, Global> {
    ghost listed = { λ edges. edges.items };

    fn put_edge(&mut self, edge: Edge) -> Result<(), OutOfMemory> {
        self.push(edge)?;
        Ok(())
    }
}

impl EdgeList for Vec<Edge> {
    ghost listed = { λ edges. edges.items };

    fn put_edge(&mut self, edge: Edge) -> Result<(), OutOfMemory> {
        self.push(edge)?;
        Ok(())
    }
}
