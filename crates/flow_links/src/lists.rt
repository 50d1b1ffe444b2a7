// The lists, side by side in blocks.
ghost use Rattle.std.specs.Prelude.{◌≡◌, IfOk, filter};
ghost use Rattle.flow_graph.specs.Analyses.{is_backward as is_backward_of};
ghost use Rattle.flow_graph.specs.Problems.{may_shape};
ghost use Rattle.flow_graph.specs.Points.{point_count};
ghost use Rattle.flow_links.specs.Tables.EdgeLists.{AreListed, call_link, call_source, is_call, key_of, site_link, step_target};

use crate::OutOfMemory;
use crate::call_edges::calls_of;
use crate::keys::{key_count, places};
use crate::link::{CallLink, SiteLink};
use crate::list_kind::ListKind;
use crate::values::{links, sites, sources, targets};
use flow_graph::Edge;
use gen_kill::Problem;
use std::alloc::Global;
use worklist::Groups;

/// Points by point: those of a point `x` are `items[starts[x]..starts[x + 1]]`.
#[derive(Drop)]
pub(crate) struct PointLists {
    pub starts: Vec<u32>,
    pub items: Vec<u32>,
}

/// Where calls lead, by point.
#[derive(Drop)]
pub(crate) struct CallLists {
    pub starts: Vec<u32>,
    pub items: Vec<CallLink>,
}

/// Calls by procedure.
#[derive(Drop)]
pub(crate) struct SiteLists {
    pub starts: Vec<u32>,
    pub items: Vec<SiteLink>,
}

// The steps from each point.
fn step_lists(
    alloc: Global,
    problem: &Problem<'_, '_>,
    edges: &[Edge],
) -> Result<PointLists, OutOfMemory>
    requires { edges.now ≡ (may_shape problem.now.program problem.now.analysis).edges }
    ensures { IfOk result (λ lists. AreListed (may_shape problem.now.program problem.now.analysis).edges
        (key_of ListKind.Steps (may_shape problem.now.program problem.now.analysis) (point_count problem.now.program)) step_target
        (point_count problem.now.program) lists.starts.items lists.items.items) }
{
    let Groups { starts, places } = places(alloc, ListKind::Steps, problem, edges)?;
    let end = starts[key_count(ListKind::Steps, problem) as usize] as usize;
    let places = places.as_slice();
    let items = targets(alloc, problem, edges, &places[..end])?;
    Ok(PointLists { starts, items })
}

// The calls from each point.
fn call_lists(
    alloc: Global,
    problem: &Problem<'_, '_>,
    calls: &[Edge],
) -> Result<CallLists, OutOfMemory>
    requires { calls.now ≡ filter is_call (may_shape problem.now.program problem.now.analysis).edges }
    ensures { IfOk result (λ lists. AreListed (may_shape problem.now.program problem.now.analysis).edges
        (key_of ListKind.Calls (may_shape problem.now.program problem.now.analysis) (point_count problem.now.program))
        (call_link (may_shape problem.now.program problem.now.analysis) (is_backward_of problem.now.analysis))
        (point_count problem.now.program) lists.starts.items lists.items.items) }
{
    let Groups { starts, places } = places(alloc, ListKind::Calls, problem, calls)?;
    let end = starts[key_count(ListKind::Calls, problem) as usize] as usize;
    let places = places.as_slice();
    let items = links(alloc, problem, calls, &places[..end])?;
    Ok(CallLists { starts, items })
}

// The callers of each exit.
fn caller_lists(
    alloc: Global,
    problem: &Problem<'_, '_>,
    calls: &[Edge],
) -> Result<PointLists, OutOfMemory>
    requires { calls.now ≡ filter is_call (may_shape problem.now.program problem.now.analysis).edges }
    ensures { IfOk result (λ lists. AreListed (may_shape problem.now.program problem.now.analysis).edges
        (key_of ListKind.Callers (may_shape problem.now.program problem.now.analysis) (point_count problem.now.program)) call_source
        (point_count problem.now.program) lists.starts.items lists.items.items) }
{
    let Groups { starts, places } = places(alloc, ListKind::Callers, problem, calls)?;
    let end = starts[key_count(ListKind::Callers, problem) as usize] as usize;
    let places = places.as_slice();
    let items = sources(alloc, problem, calls, &places[..end])?;
    Ok(PointLists { starts, items })
}

// The calls in each procedure.
fn site_lists(
    alloc: Global,
    problem: &Problem<'_, '_>,
    calls: &[Edge],
) -> Result<SiteLists, OutOfMemory>
    requires { calls.now ≡ filter is_call (may_shape problem.now.program problem.now.analysis).edges }
    ensures { IfOk result (λ lists. AreListed (may_shape problem.now.program problem.now.analysis).edges
        (key_of ListKind.Sites (may_shape problem.now.program problem.now.analysis) (point_count problem.now.program))
        (site_link (may_shape problem.now.program problem.now.analysis))
        (may_shape problem.now.program problem.now.analysis).procedures lists.starts.items lists.items.items) }
{
    let Groups { starts, places } = places(alloc, ListKind::Sites, problem, calls)?;
    let end = starts[key_count(ListKind::Sites, problem) as usize] as usize;
    let places = places.as_slice();
    let items = sites(alloc, problem, calls, &places[..end])?;
    Ok(SiteLists { starts, items })
}

/// The lists of all kinds.
#[derive(Drop)]
pub(crate) struct EdgeLists {
    pub steps: PointLists,
    pub calls: CallLists,
    pub callers: PointLists,
    pub sites: SiteLists,
}

// Two lists of points: the steps, and the callers.
fn point_lists(
    alloc: Global,
    problem: &Problem<'_, '_>,
    edges: &[Edge],
    calls: &[Edge],
) -> Result<(PointLists, PointLists), OutOfMemory>
    requires edges { edges.now ≡ (may_shape problem.now.program problem.now.analysis).edges }
    requires calls { calls.now ≡ filter is_call (may_shape problem.now.program problem.now.analysis).edges }
    ensures steps { IfOk result (λ lists. AreListed (may_shape problem.now.program problem.now.analysis).edges
        (key_of ListKind.Steps (may_shape problem.now.program problem.now.analysis) (point_count problem.now.program)) step_target
        (point_count problem.now.program) lists.0.starts.items lists.0.items.items) }
    ensures callers { IfOk result (λ lists. AreListed (may_shape problem.now.program problem.now.analysis).edges
        (key_of ListKind.Callers (may_shape problem.now.program problem.now.analysis) (point_count problem.now.program)) call_source
        (point_count problem.now.program) lists.1.starts.items lists.1.items.items) }
{
    let steps = step_lists(alloc, problem, edges)?;
    let callers = caller_lists(alloc, problem, calls)?;
    Ok((steps, callers))
}

// Two lists of links: the calls by point, and by procedure.
fn link_lists(
    alloc: Global,
    problem: &Problem<'_, '_>,
    calls: &[Edge],
) -> Result<(CallLists, SiteLists), OutOfMemory>
    requires { calls.now ≡ filter is_call (may_shape problem.now.program problem.now.analysis).edges }
    ensures calls { IfOk result (λ lists. AreListed (may_shape problem.now.program problem.now.analysis).edges
        (key_of ListKind.Calls (may_shape problem.now.program problem.now.analysis) (point_count problem.now.program))
        (call_link (may_shape problem.now.program problem.now.analysis) (is_backward_of problem.now.analysis))
        (point_count problem.now.program) lists.0.starts.items lists.0.items.items) }
    ensures sites { IfOk result (λ lists. AreListed (may_shape problem.now.program problem.now.analysis).edges
        (key_of ListKind.Sites (may_shape problem.now.program problem.now.analysis) (point_count problem.now.program))
        (site_link (may_shape problem.now.program problem.now.analysis))
        (may_shape problem.now.program problem.now.analysis).procedures lists.1.starts.items lists.1.items.items) }
{
    let sites = site_lists(alloc, problem, calls)?;
    let calls = call_lists(alloc, problem, calls)?;
    Ok((calls, sites))
}

// The lists of all kinds of these edges, and of the calls among them.
fn lists_over(
    alloc: Global,
    problem: &Problem<'_, '_>,
    edges: &[Edge],
    calls: &[Edge],
) -> Result<EdgeLists, OutOfMemory>
    requires edges { edges.now ≡ (may_shape problem.now.program problem.now.analysis).edges }
    requires calls { calls.now ≡ filter is_call (may_shape problem.now.program problem.now.analysis).edges }
    ensures steps { IfOk result (λ lists. AreListed (may_shape problem.now.program problem.now.analysis).edges
        (key_of ListKind.Steps (may_shape problem.now.program problem.now.analysis) (point_count problem.now.program)) step_target
        (point_count problem.now.program) lists.steps.starts.items lists.steps.items.items) }
    ensures calls { IfOk result (λ lists. AreListed (may_shape problem.now.program problem.now.analysis).edges
        (key_of ListKind.Calls (may_shape problem.now.program problem.now.analysis) (point_count problem.now.program))
        (call_link (may_shape problem.now.program problem.now.analysis) (is_backward_of problem.now.analysis))
        (point_count problem.now.program) lists.calls.starts.items lists.calls.items.items) }
    ensures callers { IfOk result (λ lists. AreListed (may_shape problem.now.program problem.now.analysis).edges
        (key_of ListKind.Callers (may_shape problem.now.program problem.now.analysis) (point_count problem.now.program)) call_source
        (point_count problem.now.program) lists.callers.starts.items lists.callers.items.items) }
    ensures sites { IfOk result (λ lists. AreListed (may_shape problem.now.program problem.now.analysis).edges
        (key_of ListKind.Sites (may_shape problem.now.program problem.now.analysis) (point_count problem.now.program))
        (site_link (may_shape problem.now.program problem.now.analysis))
        (may_shape problem.now.program problem.now.analysis).procedures lists.sites.starts.items lists.sites.items.items) }
{
    let (steps, callers) = point_lists(alloc, problem, edges, calls)?;
    let (calls, sites) = link_lists(alloc, problem, calls)?;
    Ok(EdgeLists {
        steps,
        calls,
        callers,
        sites,
    })
}

/// The lists of all kinds of a problem's edges.
pub(crate) fn edge_lists(alloc: Global, problem: &Problem<'_, '_>) -> Result<EdgeLists, OutOfMemory>
    ensures steps { IfOk result (λ lists. AreListed (may_shape problem.now.program problem.now.analysis).edges
        (key_of ListKind.Steps (may_shape problem.now.program problem.now.analysis) (point_count problem.now.program)) step_target
        (point_count problem.now.program) lists.steps.starts.items lists.steps.items.items) }
    ensures calls { IfOk result (λ lists. AreListed (may_shape problem.now.program problem.now.analysis).edges
        (key_of ListKind.Calls (may_shape problem.now.program problem.now.analysis) (point_count problem.now.program))
        (call_link (may_shape problem.now.program problem.now.analysis) (is_backward_of problem.now.analysis))
        (point_count problem.now.program) lists.calls.starts.items lists.calls.items.items) }
    ensures callers { IfOk result (λ lists. AreListed (may_shape problem.now.program problem.now.analysis).edges
        (key_of ListKind.Callers (may_shape problem.now.program problem.now.analysis) (point_count problem.now.program)) call_source
        (point_count problem.now.program) lists.callers.starts.items lists.callers.items.items) }
    ensures sites { IfOk result (λ lists. AreListed (may_shape problem.now.program problem.now.analysis).edges
        (key_of ListKind.Sites (may_shape problem.now.program problem.now.analysis) (point_count problem.now.program))
        (site_link (may_shape problem.now.program problem.now.analysis))
        (may_shape problem.now.program problem.now.analysis).procedures lists.sites.starts.items lists.sites.items.items) }
{
    let edges = problem.edges(alloc)?;
    let calls = calls_of(alloc, edges.as_slice())?;
    lists_over(alloc, problem, edges.as_slice(), calls.as_slice())
}
