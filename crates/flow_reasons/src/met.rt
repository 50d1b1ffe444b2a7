// Which of some marked statements are met before any that stops the way.
ghost use Rattle.std.specs.Prelude.{◌≡◌, ◌<◌, ◌↔◌, ◌∷◌, ◌++◌, [], true, IfOk, OnOk, length, if◌then◌else◌};
ghost use Rattle.flow_graph.specs.Paths.{SomePathHas};
ghost use Rattle.flow_graph.specs.Points.{point_count};
ghost use Rattle.flow_links.specs.Shapes.{directed_shape};
ghost use Rattle.flow_why.specs.PointBits.{point_transfer};
ghost use Rattle.flow_reasons.specs.Lists.{AreAll};
ghost use Rattle.flow_reasons.specs.code.Marks.{IsMet, Meets};

use crate::OutOfMemory;
use flow_graph::Graph;
use flow_why::{PointBit, Ways};
use flow_witnesses::{PointWhy, Space};
use std::alloc::Global;

/// Whether some valid path to a point has a bit.
pub(crate) fn path_has(
    alloc: Global,
    ways: &Ways,
    graph: &Graph<'_>,
    bit: &PointBit<'_>,
    at: u32,
) -> Result<bool, OutOfMemory>
    requires graph { graph.now ≡ ways.now.linked.program }
    requires at { at < point_count ways.now.linked.program }
    ensures { IfOk result (λ has. (has ≡ true)
        ↔ SomePathHas (directed_shape ways.now.linked) (point_transfer ways.now.linked.backward bit.now) at) }
{
    let why = PointWhy::of(alloc, ways, graph, bit)?;
    Ok(why.has(at))
}

/// Puts a number last where it is one of those that are wanted.
pub(crate) fn put_if(numbers: &mut Vec<u32>, number: u32, wanted: bool) -> Result<(), OutOfMemory>
    ensures { OnOk result (numbers.new.items ≡ (if wanted then numbers.old.items ++ number ∷ [] else numbers.old.items)) }
{
    if wanted {
        numbers.push(number)?;
    }
    Ok(())
}

/// Where a search for what is met ends, and which statements it stops at.
#[derive(Drop)]
pub(crate) struct Search<'a, 'p> {
    /// The ways that it goes.
    pub ways: &'a Ways,
    /// Their program's graph.
    pub graph: &'a Graph<'p>,
    /// By point, which statements stop a way.
    pub stops: &'a [bool],
    /// The point to which the ways lead.
    pub at: u32,
}

// Whether a statement is met.
fn meets(
    alloc: Global,
    search: &Search<'_, '_>,
    space: Space,
    point: u32,
) -> Result<(bool, Space), OutOfMemory>
    requires graph { search.now.graph.now ≡ search.now.ways.now.linked.program }
    requires at { search.now.at < point_count search.now.ways.now.linked.program }
    requires space { space ≡ point_count search.now.ways.now.linked.program }
    ensures has { IfOk result (λ found. (found.0 ≡ true) ↔ Meets search.now.ways.now.linked search.now.stops.now search.now.at point) }
    ensures space { IfOk result (λ found. found.1 ≡ point_count search.now.ways.now.linked.program) }
{
    let gens = [point];
    let bit = PointBit::new(&gens, search.stops, false);
    space.path_has(alloc, search.ways, search.graph, &bit, search.at)
}

/// Those of some marked statements that are met.
pub(crate) fn met_points(
    alloc: Global,
    search: &Search<'_, '_>,
    wanted: &[bool],
) -> Result<Vec<u32>, OutOfMemory>
    requires graph { search.now.graph.now ≡ search.now.ways.now.linked.program }
    requires at { search.now.at < point_count search.now.ways.now.linked.program }
    requires wanted { length wanted.now ≡ point_count search.now.ways.now.linked.program }
    ensures { IfOk result (λ list. AreAll (IsMet search.now.ways.now.linked wanted.now search.now.stops.now search.now.at) list.items) }
{
    let mut list = Vec::new(alloc);
    let mut space = Space::of(alloc, search.ways)?;
    for point in 0..search.graph.points() {
        // An owner that moves costs far more than the test: few are marked.
        if wanted[point as usize] {
            let (has, left) = meets(alloc, search, space, point)?;
            space = left;
            put_if(&mut list, point, has)?;
        }
    }
    Ok(list)
}
