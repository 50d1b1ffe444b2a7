// The steps that lead to a point, and the returns.

ghost use Rattle.std.specs.Prelude.{◌≡◌, ◌++◌, None, Some, IfOk, OnOk, length, option_to_list, if◌then◌else◌};
ghost use Rattle.std.specs.List.{list_any};
ghost use Rattle.flow_graph.specs.Paths.{source_of};
ghost use Rattle.flow_rounds.specs.Rounds.{is_return_to, is_step_to};
ghost use Rattle.flow_rounds.specs.code.Frames.{has_path_within, sources_to};

use crate::OutOfMemory;
use crate::point_range::PointRange;
use flow_graph::Edge;
use flow_team::Table;
use std::alloc::Global;

// Whether an edge is a return that leads to a point.
fn is_return_to(edge: Edge, point: u32) -> bool
    ensures { result ≡ is_return_to point edge }
{
    match edge {
        Edge::Step { .. } => false,
        Edge::Call { .. } => false,
        Edge::Ret { to, .. } => to == point,
    }
}

/// Whether a return leads to a point.
pub(crate) fn has_return_to(edges: &[Edge], point: u32) -> bool
    ensures { result ≡ list_any (is_return_to point) edges.now }
{
    for edge in edges {
        if is_return_to(*edge, point) {
            return true;
        }
    }
    false
}

/// Whether a valid path leads to one of these points; of others none is told.
pub(crate) fn has_path(table: &Table, points: PointRange, point: u32) -> bool
    requires { length table.now.paths ≡ points.end }
    ensures { result ≡ has_path_within points table.now point }
{
    points.first <= point && point < points.end && table.has_path(point)
}

// The point from which a step goes to a point, where it has a valid path.
fn step_source(table: &Table, points: PointRange, edge: Edge, point: u32) -> Option<u32>
    requires { length table.now.paths ≡ points.end }
    ensures { result ≡ (if is_step_to (has_path_within points table.now) point edge then Some (source_of edge) else None) }
{
    match edge {
        Edge::Step { from, to } => {
            if to == point && has_path(table, points, from) {
                Some(from)
            } else {
                None
            }
        },
        Edge::Call { .. } => None,
        Edge::Ret { .. } => None,
    }
}

// Puts a point last, where there is one.
fn put_source(sources: &mut Vec<u32>, source: Option<u32>) -> Result<(), OutOfMemory>
    ensures { OnOk result (sources.new.items ≡ sources.old.items ++ option_to_list source) }
{
    if let Some(point) = source {
        sources.push(point)?;
    }
    Ok(())
}

/// The points from which steps lead to a point, of those that have a valid path.
pub(crate) fn sources(
    alloc: Global,
    table: &Table,
    points: PointRange,
    edges: &[Edge],
    point: u32,
) -> Result<Vec<u32>, OutOfMemory>
    requires { length table.now.paths ≡ points.end }
    ensures { IfOk result (λ sources. sources.items ≡ sources_to edges.now (has_path_within points table.now) point) }
{
    let mut sources = Vec::new(alloc);
    for edge in edges {
        put_source(&mut sources, step_source(table, points, *edge, point))?;
    }
    Ok(sources)
}
