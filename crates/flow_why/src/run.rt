// A search: where it begins, and visits of all that it finds.
ghost use Rattle.std.specs.Prelude.{◌≡◌, ◌<◌, ℕ, true, Contains, IfOk, OnOk};
ghost use Rattle.flow_graph.specs.Edges.{edges as edges_of};
ghost use Rattle.flow_graph.specs.declared.edge.Edge.TheVariants.{Step};
ghost use Rattle.flow_graph.specs.Paths.{IsEdge, root, source_of};
ghost use Rattle.flow_graph.specs.Points.{point_count};
ghost use Rattle.flow_links.specs.Shapes.{directed_shape};
ghost use Rattle.flow_why.specs.declared.claim.Claim.TheVariants as claims;
ghost use Rattle.flow_why.specs.code.Found.{Has, nothing_found};
ghost use Rattle.flow_why.specs.code.Frames.{GeneratesAt, IsColumnFrame, IsFrame, IsPointFrame, question_of, transfer_for};
ghost use Rattle.flow_why.specs.code.Marked.{AreMarks, BaseHas, Spreads};
ghost use Rattle.flow_why.specs.code.Visits.{AreGensVisited, IsComplete, IsEdgeGenVisited, IsGenVisited, IsStatementGenVisited};

use crate::OutOfMemory;
use crate::claim::Claim;
use crate::frame::{Asked, Frame, based, directed_step, in_boundary, statement_point};
use crate::hop::Hop;
use crate::mark::{Mark, Reason};
use crate::point_bit::PointBit;
use crate::search::Search;
use crate::visit::{add, visit};
use flow_graph::{Edge, Graph};
use gen_kill::Problem;
use std::alloc::Global;

// Begins where the problem does, if the boundary has the bit.
fn begin_at_root(frame: &Frame<'_, '_, '_>, search: &mut Search) -> Result<(), OutOfMemory>
    requires frame { IsFrame frame.now }
    requires marks { AreMarks (question_of frame.now) search.old }
    ensures spreads { OnOk result (Spreads (question_of frame.now) search.old search.new) }
    ensures has { OnOk result ((transfer_for frame.now).boundary ≡ true → Has search.new claims.Holds (root (directed_shape frame.now.links.now))) }
{
    if !in_boundary(frame) {
        return Ok(());
    }
    let mark = Mark {
        point: frame.links.entry(frame.links.root()),
        reason: Reason::Beginning,
    };
    add(frame, search, Claim::Holds, mark)
}

// Marks the end of a step that generates the bit, if paths lead to its beginning.
fn gen_known(
    frame: &Frame<'_, '_, '_>,
    search: &mut Search,
    claim: Claim,
    at: u32,
    to: u32,
) -> Result<(), OutOfMemory>
    requires frame { IsFrame frame.now }
    requires marks { AreMarks (question_of frame.now) search.old }
    requires there { IsEdge (directed_shape frame.now.links.now) (Step at to) }
    requires gens { (transfer_for frame.now).gen at to ≡ true }
    ensures spreads { OnOk result (Spreads (question_of frame.now) search.old search.new) }
    ensures has { OnOk result (BaseHas frame.now.base.now claim at → Has search.new claim to) }
{
    if !based(frame, claim, at) {
        return Ok(());
    }
    let reason = Reason::Base(Hop::Step { from: at, to });
    add(frame, search, claim, Mark { point: to, reason })
}

// Goes over a step that generates the bit.
fn gen_here(
    frame: &Frame<'_, '_, '_>,
    search: &mut Search,
    at: u32,
    to: u32,
) -> Result<(), OutOfMemory>
    requires frame { IsFrame frame.now }
    requires marks { AreMarks (question_of frame.now) search.old }
    requires there { IsEdge (directed_shape frame.now.links.now) (Step at to) }
    requires gens { (transfer_for frame.now).gen at to ≡ true }
    ensures spreads { OnOk result (Spreads (question_of frame.now) search.old search.new) }
    ensures visited { OnOk result (IsGenVisited (question_of frame.now) at to search.new) }
{
    gen_known(frame, search, Claim::Generated, at, to)?;
    gen_known(frame, search, Claim::Holds, at, to)
}

// Looks at one step, for a column.
fn gen_step(
    frame: &Frame<'_, '_, '_>,
    problem: &Problem<'_, '_>,
    column: u32,
    search: &mut Search,
    at: u32,
    to: u32,
) -> Result<(), OutOfMemory>
    requires frame { IsFrame frame.now }
    requires column { IsColumnFrame frame.now problem.now column }
    requires marks { AreMarks (question_of frame.now) search.old }
    requires there { IsEdge (directed_shape frame.now.links.now) (Step at to) }
    ensures spreads { OnOk result (Spreads (question_of frame.now) search.old search.new) }
    ensures visited { OnOk result (IsGenVisited (question_of frame.now) at to search.new) }
{
    let point = statement_point(frame.links.direction(), at, to);
    if !problem.gens(point, column) {
        return Ok(());
    }
    gen_here(frame, search, at, to)
}

// Looks at the steps from a point.
fn gen_steps(
    frame: &Frame<'_, '_, '_>,
    problem: &Problem<'_, '_>,
    column: u32,
    search: &mut Search,
    at: u32,
) -> Result<(), OutOfMemory>
    requires frame { IsFrame frame.now }
    requires column { IsColumnFrame frame.now problem.now column }
    requires marks { AreMarks (question_of frame.now) search.old }
    requires within { at < point_count frame.now.links.now.program }
    ensures spreads { OnOk result (Spreads (question_of frame.now) search.old search.new) }
    ensures visited { OnOk result ((y : ℕ) → IsEdge (directed_shape frame.now.links.now) (Step at y) → IsGenVisited
        (question_of frame.now) at y search.new) }
{
    let steps = frame.links.steps_from(at);
    for to in steps {
        gen_step(frame, problem, column, search, at, *to)?;
    }
    Ok(())
}

// Looks at all steps, for a column.
fn gen_points(
    frame: &Frame<'_, '_, '_>,
    problem: &Problem<'_, '_>,
    column: u32,
    search: &mut Search,
) -> Result<(), OutOfMemory>
    requires frame { IsFrame frame.now }
    requires column { IsColumnFrame frame.now problem.now column }
    requires marks { AreMarks (question_of frame.now) search.old }
    ensures spreads { OnOk result (Spreads (question_of frame.now) search.old search.new) }
    ensures visited { OnOk result (AreGensVisited (question_of frame.now) search.new) }
{
    for at in 0..frame.links.points() {
        gen_steps(frame, problem, column, search, at)?;
    }
    Ok(())
}

// Goes over an edge out of a statement that generates the bit.
fn gen_edge(frame: &Frame<'_, '_, '_>, search: &mut Search, edge: Edge) -> Result<(), OutOfMemory>
    requires frame { IsFrame frame.now }
    requires marks { AreMarks (question_of frame.now) search.old }
    requires there { Contains (edges_of frame.now.links.now.program) edge }
    requires gens { GeneratesAt frame.now (source_of edge) }
    ensures spreads { OnOk result (Spreads (question_of frame.now) search.old search.new) }
    ensures visited { OnOk result (IsEdgeGenVisited frame.now edge search.new) }
{
    match edge {
        Edge::Step { from, to } => {
            let (at, to) = directed_step(frame.links.direction(), from, to);
            gen_here(frame, search, at, to)
        },
        Edge::Call { .. } => Ok(()),
        Edge::Ret { .. } => Ok(()),
    }
}

// Goes over the steps of a statement that generates the bit, if there is one at the point.
fn gen_statement(
    alloc: Global,
    frame: &Frame<'_, '_, '_>,
    graph: &Graph<'_>,
    search: &mut Search,
    point: u32,
) -> Result<(), OutOfMemory>
    requires frame { IsFrame frame.now }
    requires graph { graph.now ≡ frame.now.links.now.program }
    requires marks { AreMarks (question_of frame.now) search.old }
    requires gens { GeneratesAt frame.now point }
    ensures spreads { OnOk result (Spreads (question_of frame.now) search.old search.new) }
    ensures visited { OnOk result (IsStatementGenVisited frame.now point search.new) }
{
    // Its contract tells that the program is sound, too.
    if point >= graph.points() {
        return Ok(());
    }
    let edges = graph.succ(alloc, point)?;
    for edge in edges.as_slice() {
        gen_edge(frame, search, *edge)?;
    }
    Ok(())
}

// Goes over all statements that generate a bit of one's own.
fn gen_statements(
    alloc: Global,
    frame: &Frame<'_, '_, '_>,
    graph: &Graph<'_>,
    bit: &PointBit<'_>,
    search: &mut Search,
) -> Result<(), OutOfMemory>
    requires frame { IsFrame frame.now }
    requires points { IsPointFrame frame.now graph.now bit.now }
    requires marks { AreMarks (question_of frame.now) search.old }
    ensures spreads { OnOk result (Spreads (question_of frame.now) search.old search.new) }
    ensures visited { OnOk result (AreGensVisited (question_of frame.now) search.new) }
{
    let gens = bit.gens();
    for point in gens {
        gen_statement(alloc, frame, graph, search, *point)?;
    }
    Ok(())
}

// Goes over all steps that generate what is asked for: where paths lead, none does.
fn gen_all(alloc: Global, frame: &Frame<'_, '_, '_>, search: &mut Search) -> Result<(), OutOfMemory>
    requires frame { IsFrame frame.now }
    requires marks { AreMarks (question_of frame.now) search.old }
    ensures spreads { OnOk result (Spreads (question_of frame.now) search.old search.new) }
    ensures visited { OnOk result (AreGensVisited (question_of frame.now) search.new) }
{
    match frame.asked {
        Asked::Paths => Ok(()),
        Asked::Column(problem, column) => gen_points(frame, problem, column, search),
        Asked::Points(graph, bit) => gen_statements(alloc, frame, graph, bit, search),
    }
}

/// Fills a blank search.
pub fn run(alloc: Global, frame: &Frame<'_, '_, '_>, search: &mut Search) -> Result<(), OutOfMemory>
    requires frame { IsFrame frame.now }
    requires blank { search.old ≡ nothing_found (point_count frame.now.links.now.program) }
    ensures marks { OnOk result (AreMarks (question_of frame.now) search.new) }
    ensures complete { OnOk result (IsComplete (question_of frame.now) search.new) }
{
    begin_at_root(frame, search)?;
    gen_all(alloc, frame, search)?;
    'visits: while let Some((claim, at)) = search.take() {
        visit(frame, search, claim, at)?;
    }
    Ok(())
}

/// Finds what a frame is for.
pub fn search_for(alloc: Global, frame: &Frame<'_, '_, '_>) -> Result<Search, OutOfMemory>
    requires { IsFrame frame.now }
    ensures marks { IfOk result (λ search. AreMarks (question_of frame.now) search) }
    ensures complete { IfOk result (λ search. IsComplete (question_of frame.now) search) }
{
    let mut search = Search::blank(alloc, frame.links.points())?;
    run(alloc, frame, &mut search)?;
    Ok(search)
}
