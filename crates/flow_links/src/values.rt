// What stands for each edge in the lists.
ghost use Rattle.std.specs.Prelude.{◌≡◌, ℕ, ◌<◌, IfOk, length, map, slice_index};
ghost use Rattle.flow_graph.specs.Analyses.{is_backward as is_backward_of};
ghost use Rattle.flow_graph.specs.Problems.{may_shape};
ghost use Rattle.flow_graph.specs.Paths.{IsEdge};
ghost use Rattle.flow_links.specs.Tables.EdgeLists.{AreEdges, call_link, call_source, edge_at, site_link, step_target};

use crate::OutOfMemory;
use crate::link::{CallLink, SiteLink};
use flow_graph::{Direction, Edge};
use gen_kill::Problem;
use std::alloc::Global;

// The point to which a step leads.
fn target(problem: &Problem<'_, '_>, edge: Edge) -> u32
    requires { IsEdge (may_shape problem.now.program problem.now.analysis) edge }
    ensures { result ≡ step_target edge }
{
    match edge {
        Edge::Step { to, .. } => to,
        Edge::Call { .. } => 0,
        Edge::Ret { .. } => 0,
    }
}

// The point from which a call leads.
fn source(problem: &Problem<'_, '_>, edge: Edge) -> u32
    requires { IsEdge (may_shape problem.now.program problem.now.analysis) edge }
    ensures { result ≡ call_source edge }
{
    match edge {
        Edge::Step { .. } => 0,
        Edge::Call { from, .. } => from,
        Edge::Ret { .. } => 0,
    }
}

// Where a call leads.
fn link_of(problem: &Problem<'_, '_>, edge: Edge) -> CallLink
    requires { IsEdge (may_shape problem.now.program problem.now.analysis) edge }
    ensures { result ≡ call_link (may_shape problem.now.program problem.now.analysis) (is_backward_of problem.now.analysis) edge }
{
    // Their contracts tell that the program is sound and has few points.
    let _ = problem.procedures();
    let _ = problem.points();
    match edge {
        Edge::Step { .. } => CallLink { exit: 0, after: 0 },
        Edge::Call { site, to, .. } => {
            let exit = problem.exit(problem.procedure(to));
            let after = match problem.direction() {
                Direction::Forward => site + 1,
                Direction::Backward => site,
            };
            CallLink { exit, after }
        }
        Edge::Ret { .. } => CallLink { exit: 0, after: 0 },
    }
}

// A call in its procedure.
fn site_of(problem: &Problem<'_, '_>, edge: Edge) -> SiteLink
    requires { IsEdge (may_shape problem.now.program problem.now.analysis) edge }
    ensures { result ≡ site_link (may_shape problem.now.program problem.now.analysis) edge }
{
    let _ = problem.procedures();
    let _ = problem.points();
    match edge {
        Edge::Step { .. } => SiteLink {
            point: 0,
            callee: 0,
        },
        Edge::Call { from, to, .. } => SiteLink {
            point: from,
            callee: problem.procedure(to),
        },
        Edge::Ret { .. } => SiteLink {
            point: 0,
            callee: 0,
        },
    }
}

/// The targets of the steps at these places among these edges.
pub(crate) fn targets(
    alloc: Global,
    problem: &Problem<'_, '_>,
    edges: &[Edge],
    places: &[u32],
) -> Result<Vec<u32>, OutOfMemory>
    requires edges { AreEdges (may_shape problem.now.program problem.now.analysis) edges.now }
    requires places { (j : ℕ) → j < length places.now → slice_index places.now j < length edges.now }
    ensures { IfOk result (λ list. list.items ≡ map (λ place. step_target (edge_at edges.now place)) places.now) }
{
    let mut list = Vec::with_capacity(alloc, places.len())?;
    for place in places {
        list.push(target(problem, edges[*place as usize]))?;
    }
    Ok(list)
}

/// The sources of the calls at these places among these edges.
pub(crate) fn sources(
    alloc: Global,
    problem: &Problem<'_, '_>,
    edges: &[Edge],
    places: &[u32],
) -> Result<Vec<u32>, OutOfMemory>
    requires edges { AreEdges (may_shape problem.now.program problem.now.analysis) edges.now }
    requires places { (j : ℕ) → j < length places.now → slice_index places.now j < length edges.now }
    ensures { IfOk result (λ list. list.items ≡ map (λ place. call_source (edge_at edges.now place)) places.now) }
{
    let mut list = Vec::with_capacity(alloc, places.len())?;
    for place in places {
        list.push(source(problem, edges[*place as usize]))?;
    }
    Ok(list)
}

/// Where the calls at these places among these edges lead.
pub(crate) fn links(
    alloc: Global,
    problem: &Problem<'_, '_>,
    edges: &[Edge],
    places: &[u32],
) -> Result<Vec<CallLink>, OutOfMemory>
    requires edges { AreEdges (may_shape problem.now.program problem.now.analysis) edges.now }
    requires places { (j : ℕ) → j < length places.now → slice_index places.now j < length edges.now }
    ensures { IfOk result
        (λ list. list.items ≡ map (λ place. call_link (may_shape problem.now.program problem.now.analysis) (is_backward_of problem.now.analysis)
        (edge_at edges.now place)) places.now) }
{
    let mut list = Vec::with_capacity(alloc, places.len())?;
    for place in places {
        list.push(link_of(problem, edges[*place as usize]))?;
    }
    Ok(list)
}

/// The calls at these places among these edges, in their procedures.
pub(crate) fn sites(
    alloc: Global,
    problem: &Problem<'_, '_>,
    edges: &[Edge],
    places: &[u32],
) -> Result<Vec<SiteLink>, OutOfMemory>
    requires edges { AreEdges (may_shape problem.now.program problem.now.analysis) edges.now }
    requires places { (j : ℕ) → j < length places.now → slice_index places.now j < length edges.now }
    ensures { IfOk result (λ list. list.items ≡ map (λ place. site_link (may_shape problem.now.program problem.now.analysis)
        (edge_at edges.now place)) places.now) }
{
    let mut list = Vec::with_capacity(alloc, places.len())?;
    for place in places {
        list.push(site_of(problem, edges[*place as usize]))?;
    }
    Ok(list)
}
