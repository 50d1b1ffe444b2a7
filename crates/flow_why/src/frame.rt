// What a search is for, and what steps do with its bit.
ghost use Rattle.std.specs.Prelude.{◌≡◌, ◌<◌, ◌↔◌, [], true, false, not, slice_index_or};
ghost use Rattle.flow_graph.specs.declared.edge.Edge.TheVariants.{Step};
ghost use Rattle.flow_graph.specs.Directions.{goes_backward};
ghost use Rattle.flow_graph.specs.Paths.{IsEdge};
ghost use Rattle.flow_graph.specs.Points.{point_count};
ghost use Rattle.flow_links.specs.Shapes.{after_site, call_site, directed_shape};
ghost use Rattle.flow_why.specs.PointBits.{step_statement};
ghost use Rattle.flow_why.specs.code.Frames.{IsFrame, call_after, effect_of, scope_of, step_begin, step_end, transfer_for};
ghost use Rattle.flow_why.specs.code.Marked.{BaseHas};
ghost use Rattle.tac_program.specs.Limits.{most_points};
ghost use Rattle.tac_program.specs.declared.limits.Limits.TheVariants.{Large};

use crate::claim::Claim;
use crate::hop::Effect;
use crate::point_bit::PointBit;
use crate::search::Search;
use flow_graph::{Direction, Graph};
use flow_links::Links;
use gen_kill::Problem;

/// What a search is for.
#[derive(Clone, Copy)]
pub enum Asked<'a, 'g, 'p> {
    /// Where paths lead, which is the search for a bit that is always there.
    Paths,
    /// The bit of a problem's column.
    Column(&'a Problem<'g, 'p>, u32),
    /// A bit of one's own, of the statements of a graph.
    Points(&'a Graph<'p>, &'a PointBit<'a>),
}

/// What a search leaves out, by procedure; behind the end of a list nothing is left out.
#[derive(Clone, Copy)]
pub struct Scope<'a> {
    /// Whether the bit is not brought to the procedure by its calls.
    pub skipped: &'a [bool],
    /// Whether it is known that the procedure's calls keep the bit.
    pub kept: &'a [bool],
}

impl<'a> Scope<'a> {
    /// Nothing is left out.
    pub fn whole() -> Self
        ensures skipped { result.skipped.now ≡ [] }
        ensures kept { result.kept.now ≡ [] }
    {
        Scope {
            skipped: &[],
            kept: &[],
        }
    }
}

// Whether a procedure is marked.
fn is_marked(marks: &[bool], procedure: u32) -> bool
    ensures { result ≡ slice_index_or marks.now procedure false }
{
    match marks.get(procedure as usize) {
        Some(mark) => *mark,
        None => false,
    }
}

/// What a search goes over.
#[derive(Drop)]
pub struct Frame<'a, 'g, 'p> {
    /// The edges by point.
    pub links: &'a Links,
    /// What it is for.
    pub asked: Asked<'a, 'g, 'p>,
    /// Where paths lead.
    pub base: &'a Search,
    /// What is left out.
    pub scope: Scope<'a>,
}

/// Whether the search brings the bit to a procedure by calls.
pub fn goes_into(frame: &Frame<'_, '_, '_>, procedure: u32) -> bool
    ensures { result ≡ not ((scope_of frame.now).skipped procedure) }
{
    !is_marked(frame.scope.skipped, procedure)
}

/// Whether it is known that the calls of a procedure keep the bit.
pub fn is_kept(frame: &Frame<'_, '_, '_>, procedure: u32) -> bool
    ensures { result ≡ (scope_of frame.now).kept procedure }
{
    is_marked(frame.scope.kept, procedure)
}

/// The point of a step's statement.
pub fn statement_point(direction: Direction, from: u32, to: u32) -> u32
    ensures { result ≡ step_statement (goes_backward direction) from to }
{
    match direction {
        Direction::Forward => from,
        Direction::Backward => to,
    }
}

/// Whether a step kills the bit.
pub fn kills(frame: &Frame<'_, '_, '_>, from: u32, to: u32) -> bool
    requires frame { IsFrame frame.now }
    requires there { IsEdge (directed_shape frame.now.links.now) (Step from to) }
    ensures { result ≡ (transfer_for frame.now).kill from to }
{
    let point = statement_point(frame.links.direction(), from, to);
    match frame.asked {
        Asked::Paths => false,
        Asked::Column(problem, column) => problem.kills(point, column),
        Asked::Points(_, bit) => bit.is_killed_at(point),
    }
}

/// Whether the bit is there where the problem begins.
pub fn in_boundary(frame: &Frame<'_, '_, '_>) -> bool
    requires { IsFrame frame.now }
    ensures { result ≡ (transfer_for frame.now).boundary }
{
    match frame.asked {
        Asked::Paths => true,
        Asked::Column(problem, column) => problem.in_boundary(column),
        Asked::Points(_, bit) => bit.in_boundary(),
    }
}

/// The effect of a call by which a claim is carried over it.
pub fn effect(frame: &Frame<'_, '_, '_>) -> Effect
    ensures { result ≡ effect_of frame.now.asked }
{
    match frame.asked {
        Asked::Paths => Effect::Reaches,
        Asked::Column(..) | Asked::Points(..) => Effect::Preserves,
    }
}

/// The ends of a program's step in a direction.
pub fn directed_step(direction: Direction, from: u32, to: u32) -> (u32, u32)
    ensures from { result.0 ≡ step_begin (goes_backward direction) from to }
    ensures to { result.1 ≡ step_end (goes_backward direction) from to }
{
    match direction {
        Direction::Forward => (from, to),
        Direction::Backward => (to, from),
    }
}

// The site of a call from a point.
fn site_of_call(direction: Direction, point: u32) -> u32
    ensures { result ≡ call_site (goes_backward direction) point }
{
    match direction {
        Direction::Forward => point,
        Direction::Backward => point.saturating_sub(1),
    }
}

// The point to which the calls of a site return.
fn point_after(direction: Direction, site: u32) -> u32
    requires { site < most_points Large }
    ensures { result ≡ after_site (goes_backward direction) site }
{
    match direction {
        Direction::Forward => site + 1,
        Direction::Backward => site,
    }
}

/// The site of the calls from a point, and where they return to.
pub fn ends_of_call(frame: &Frame<'_, '_, '_>, at: u32) -> (u32, u32)
    requires frame { IsFrame frame.now }
    requires within { at < point_count frame.now.links.now.program }
    ensures site { result.0 ≡ call_site frame.now.links.now.backward at }
    ensures after { result.1 ≡ call_after frame.now.links.now.backward at }
{
    let direction = frame.links.direction();
    let site = site_of_call(direction, at);
    (site, point_after(direction, site))
}

/// Whether paths lead to a point: valid ones where the bit may hold there, and those inside procedures where it may be generated.
pub fn based(frame: &Frame<'_, '_, '_>, claim: Claim, point: u32) -> bool
    requires frame { IsFrame frame.now }
    requires within { point < point_count frame.now.links.now.program }
    ensures { (result ≡ true) ↔ BaseHas frame.now.base.now claim point }
{
    match claim {
        Claim::Holds => frame.base.has(Claim::Holds, point),
        Claim::Generated => frame.base.has(Claim::Preserved, point),
        Claim::Preserved => false,
    }
}
