// Searches in memory that is used again.
ghost use Rattle.std.specs.Prelude.{◌≡◌, ◌<◌, ◌↔◌, true, IfOk};
ghost use Rattle.flow_graph.specs.Paths.{SomePathHas};
ghost use Rattle.flow_graph.specs.Points.{point_count};
ghost use Rattle.flow_links.specs.Shapes.{directed_shape};
ghost use Rattle.flow_why.specs.PointBits.{point_transfer};

use crate::OutOfMemory;
use crate::near::has_near;
use flow_graph::Graph;
use flow_why::point_bit::PointBit;
use flow_why::search::Search;
use flow_why::ways::Ways;
use std::alloc::Global;
use std::marker::Model;

/// Memory for searches over the points of a program, one after the other.
pub struct Space {
    search: Search,
}

impl Model for Space {
    ghost use Rattle.std.specs.Prelude.{◌≡◌, ℕ};

    // how many points there are
    ghost Value = { ℕ };

    ghost view = { λ space. space.search.holds.points };

    ghost invariant = { λ space. (space.search.generated.points ≡ space.search.holds.points)
        × (space.search.preserved.points ≡ space.search.holds.points) };
}

impl Drop for Space {
    // By hand: who gives it up then makes one call.
    fn drop(self) {
        let Space { search: _ } = self;
    }
}

impl Space {
    /// Memory for the points of a program's ways. Fails only where memory runs out.
    pub fn of(alloc: Global, ways: &Ways) -> Result<Self, OutOfMemory>
        ensures { IfOk result (λ space. space ≡ point_count ways.now.linked.program) }
    {
        let search = Search::blank(alloc, ways.links().points())?;
        Ok(Space { search })
    }

    /// Whether some valid path to a point has a bit of one's own, in the direction of the ways: what [`PointWhy::has`](crate::PointWhy::has)
    /// tells, by a search in this memory, which is handed back. Time goes with the edges of what is found, and of what was found before.
    /// Fails only where memory runs out.
    pub fn path_has(
        self,
        alloc: Global,
        ways: &Ways,
        graph: &Graph<'_>,
        bit: &PointBit<'_>,
        point: u32,
    ) -> Result<(bool, Space), OutOfMemory>
        requires graph { graph.now ≡ ways.now.linked.program }
        requires space { self ≡ point_count ways.now.linked.program }
        requires point { point < point_count ways.now.linked.program }
        ensures has { IfOk result (λ found. (found.0 ≡ true)
            ↔ SomePathHas (directed_shape ways.now.linked) (point_transfer ways.now.linked.backward bit.now) point) }
        ensures space { IfOk result (λ found. found.1 ≡ point_count ways.now.linked.program) }
    {
        let Space { mut search } = self;
        search.clear();
        let has = has_near(alloc, ways, graph, bit, &mut search, point)?;
        Ok((has, Space { search }))
    }
}
