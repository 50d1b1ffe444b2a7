// What statements in a row generate and kill, bit by bit.

ghost use Rattle.std.specs.Prelude.{◌≡◌, ◌<◌, ◌≤◌, ◌-◌};
ghost use Rattle.std.specs.List.{range_with_len};
ghost use Rattle.flow_graph.specs.Points.{point_count};
ghost use Rattle.flow_graph.specs.Universes.{bits};
ghost use Rattle.point_sets.specs.Sets.{passes};
ghost use Rattle.block_dots.specs.BlockSets.{exposed, exposed_down, exposed_up, kills_some};

use crate::transfers::{gens, kills};
use flow_graph::{Analysis, Graph};

/// Whether a statement at the points from one on and before another kills a bit.
pub(crate) fn kills_some(
    graph: &Graph<'_>,
    analysis: Analysis,
    first: u32,
    end: u32,
    bit: u32,
) -> bool
    requires ordered { first ≤ end }
    requires points { end ≤ point_count graph.now }
    requires bit { bit < bits graph.now analysis }
    ensures { result ≡ kills_some graph.now analysis (range_with_len first (end - first)) bit }
{
    for point in first..end {
        if kills(graph, analysis, point, bit) {
            return true;
        }
    }
    false
}

// Whether some of them generates it and none behind that one kills it.
fn exposed_down(graph: &Graph<'_>, analysis: Analysis, first: u32, end: u32, bit: u32) -> bool
    requires ordered { first ≤ end }
    requires points { end ≤ point_count graph.now }
    requires bit { bit < bits graph.now analysis }
    ensures { result ≡ exposed_down graph.now analysis (range_with_len first (end - first)) bit }
{
    let mut holds = false;
    for point in first..end {
        holds = stays_exposed(graph, analysis, point, bit, holds);
    }
    holds
}

// Whether it is still exposed behind one more statement.
fn stays_exposed(graph: &Graph<'_>, analysis: Analysis, point: u32, bit: u32, before: bool) -> bool
    requires point { point < point_count graph.now }
    requires bit { bit < bits graph.now analysis }
    ensures { result ≡ passes graph.now analysis point bit before }
{
    gens(graph, analysis, point, bit) || (before && !kills(graph, analysis, point, bit))
}

// Whether some of them generates it and none before that one kills it.
fn exposed_up(graph: &Graph<'_>, analysis: Analysis, first: u32, end: u32, bit: u32) -> bool
    requires ordered { first ≤ end }
    requires points { end ≤ point_count graph.now }
    requires bit { bit < bits graph.now analysis }
    ensures { result ≡ exposed_up graph.now analysis (range_with_len first (end - first)) bit }
{
    for point in first..end {
        if gens(graph, analysis, point, bit) {
            return true;
        }
        if kills(graph, analysis, point, bit) {
            return false;
        }
    }
    false
}

/// Whether they generate it, and do not kill it beyond in the direction of the analysis.
pub(crate) fn exposed(graph: &Graph<'_>, analysis: Analysis, first: u32, end: u32, bit: u32) -> bool
    requires ordered { first ≤ end }
    requires points { end ≤ point_count graph.now }
    requires bit { bit < bits graph.now analysis }
    ensures { result ≡ exposed graph.now analysis (range_with_len first (end - first)) bit }
{
    match analysis {
        Analysis::Reach => exposed_down(graph, Analysis::Reach, first, end, bit),
        Analysis::Live => exposed_up(graph, Analysis::Live, first, end, bit),
        Analysis::Avail => exposed_down(graph, Analysis::Avail, first, end, bit),
        Analysis::Busy => exposed_up(graph, Analysis::Busy, first, end, bit),
    }
}
