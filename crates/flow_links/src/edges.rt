// Whether an edge is there.
ghost use Rattle.std.specs.Prelude.{◌<◌, Decides};
ghost use Rattle.flow_graph.specs.Paths.{IsEdge};
ghost use Rattle.flow_graph.specs.Points.{point_count};
ghost use Rattle.flow_graph.specs.declared.edge.Edge.TheVariants.{Step};
ghost use Rattle.flow_links.specs.LinkLists.{IsCallLink, IsSiteLink};
ghost use Rattle.flow_links.specs.Shapes.{directed_shape};

use crate::link::{CallLink, SiteLink};
use crate::links::Links;

/// Whether a step leads from a point to another.
pub fn has_step(links: &Links, from: u32, to: u32) -> bool
    requires { from < point_count links.now.program }
    ensures { Decides result (IsEdge (directed_shape links.now) (Step from to)) }
{
    links.steps_from(from).contains(&to)
}

/// Whether a call at a point leads to an exit, and behind the call to another point.
pub fn has_call(links: &Links, from: u32, call: CallLink) -> bool
    requires { from < point_count links.now.program }
    ensures { Decides result (IsCallLink (directed_shape links.now) links.now.backward from call) }
{
    links.calls_from(from).contains(&call)
}

/// Whether a procedure has a call.
pub fn has_site(links: &Links, procedure: u32, call: SiteLink) -> bool
    requires { procedure < (directed_shape links.now).procedures }
    ensures { Decides result (IsSiteLink (directed_shape links.now) procedure call) }
{
    links.sites_in(procedure).contains(&call)
}
