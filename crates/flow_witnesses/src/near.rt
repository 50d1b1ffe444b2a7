// Searches for a bit at one point alone, which go where it may come from.
ghost use Rattle.std.specs.Prelude.{◌≡◌, ◌<◌, ◌≤◌, ◌*◌, ◌↔◌, false, true, IfOk, IfSome, MatchOption, OnOk, length};
ghost use Rattle.flow_graph.specs.Paths.{SomePathHas};
ghost use Rattle.flow_graph.specs.Points.{point_count};
ghost use Rattle.flow_graph.specs.Problems.{may_shape};
ghost use Rattle.flow_links.specs.Shapes.{directed_shape};
ghost use Rattle.flow_why.specs.Directed.{direction_of};
ghost use Rattle.flow_why.specs.PointBits.{point_transfer};
ghost use Rattle.flow_why.specs.Witnesses.{IsWitness};
ghost use Rattle.flow_why.specs.code.Closed.{IsGround, IsScope};
ghost use Rattle.flow_why.specs.code.Found.{marks_of, nothing_found};
ghost use Rattle.flow_why.specs.code.Frames.{question_of};
ghost use Rattle.flow_why.specs.code.Marked.{BaseHas};
ghost use Rattle.flow_why.specs.code.Scopes.{IsLeftFor, near_question};
ghost use Rattle.flow_why.specs.code.Trails.{IsAskedFrame};
ghost use Rattle.flow_why.specs.code.Ways.{IsOver, bit_question, point_question};
ghost use Rattle.flow_why.specs.declared.claim.Claim.{Claim};
ghost use Rattle.gen_kill.specs.Selections.{column_count, column_transfer};

use crate::OutOfMemory;
use crate::answers::{has_bit, witness_of};
use crate::point_why::point_frame;
use crate::why::frame_of;
use flow_graph::Graph;
use flow_why::frame::{Asked, Frame};
use flow_why::hop::Hop;
use flow_why::point_bit::PointBit;
use flow_why::run::{run, search_for};
use flow_why::scope::{LeftOut, left_for};
use flow_why::search::Search;
use flow_why::ways::Ways;
use gen_kill::Problem;
use std::alloc::Global;

// The frame of a search for a bit at a point that leaves this out.
fn near_frame<'a, 'g, 'p>(
    ways: &'a Ways,
    problem: &'a Problem<'g, 'p>,
    column: u32,
    left: &'a LeftOut,
    _at: u32,
) -> Frame<'a, 'g, 'p>
    requires over { IsOver ways.now (record { form = problem.now; column = column }) }
    requires left { IsLeftFor (bit_question ways.now (record { form = problem.now; column = column })).shape
        (column_transfer problem.now column) _at left.now }
    ensures frame { IsAskedFrame result }
    ensures ground { IsGround (directed_shape result.links.now) (BaseHas result.base.now) }
    ensures scope { IsScope (directed_shape result.links.now) (question_of result).scope }
    ensures into { (question_of result).scope.skipped ((question_of result).shape.procedure_of _at) ≡ false }
    ensures question { question_of result ≡ near_question (bit_question ways.now (record { form = problem.now; column = column })) left.now }
{
    Frame {
        links: ways.links(),
        asked: Asked::Column(problem, column),
        base: ways.search(),
        scope: left.scope(),
    }
}

// The same of a bit of one's own.
fn near_point_frame<'a, 'p>(
    ways: &'a Ways,
    graph: &'a Graph<'p>,
    bit: &'a PointBit<'a>,
    left: &'a LeftOut,
    _at: u32,
) -> Frame<'a, 'a, 'p>
    requires graph { graph.now ≡ ways.now.linked.program }
    requires left { IsLeftFor (point_question ways.now bit.now).shape (point_question ways.now bit.now).transfer _at left.now }
    ensures frame { IsAskedFrame result }
    ensures ground { IsGround (directed_shape result.links.now) (BaseHas result.base.now) }
    ensures scope { IsScope (directed_shape result.links.now) (question_of result).scope }
    ensures into { (question_of result).scope.skipped ((question_of result).shape.procedure_of _at) ≡ false }
    ensures question { question_of result ≡ near_question (point_question ways.now bit.now) left.now }
{
    Frame {
        links: ways.links(),
        asked: Asked::Points(graph, bit),
        base: ways.search(),
        scope: left.scope(),
    }
}

/// What a search for a bit at a point leaves out.
fn left_of(
    alloc: Global,
    ways: &Ways,
    problem: &Problem<'_, '_>,
    column: u32,
    point: u32,
) -> Result<LeftOut, OutOfMemory>
    requires over { IsOver ways.now (record { form = problem.now; column = column }) }
    requires point { point < point_count problem.now.program }
    ensures { IfOk result (IsLeftFor (bit_question ways.now (record { form = problem.now; column = column })).shape
        (column_transfer problem.now column) point) }
{
    let frame = frame_of(ways, problem, column);
    left_for(alloc, &frame, point)
}

/// The same of a bit of one's own.
fn left_of_point(
    alloc: Global,
    ways: &Ways,
    graph: &Graph<'_>,
    bit: &PointBit<'_>,
    point: u32,
) -> Result<LeftOut, OutOfMemory>
    requires graph { graph.now ≡ ways.now.linked.program }
    requires point { point < point_count ways.now.linked.program }
    ensures { IfOk result (IsLeftFor (point_question ways.now bit.now).shape (point_question ways.now bit.now).transfer point) }
{
    let frame = point_frame(ways, graph, bit);
    left_for(alloc, &frame, point)
}

/// A witness of a column's bit at one point, as [`Why::witness`](crate::Why::witness) tells it, by a search for this point alone. It does not go
/// into procedures that do not lead to the point by calls, nor into those that cannot kill the bit. Fails only where memory runs out.
pub fn witness_at(
    alloc: Global,
    ways: &Ways,
    problem: &Problem<'_, '_>,
    column: u32,
    point: u32,
) -> Result<Option<Vec<Hop>>, OutOfMemory>
    requires ways { ways.now.linked ≡ direction_of problem.now }
    requires column { column < column_count problem.now }
    requires point { point < point_count problem.now.program }
    ensures witness { IfOk result (λ found. MatchOption found
        (SomePathHas (may_shape problem.now.program problem.now.analysis) (column_transfer problem.now column) point → ⊥)
        (λ hops. IsWitness (may_shape problem.now.program problem.now.analysis) (column_transfer problem.now column) point hops.items)) }
    ensures short { IfOk result (λ found. IfSome found (λ hops. length hops.items ≤ 2 * point_count problem.now.program)) }
{
    let left = left_of(alloc, ways, problem, column, point)?;
    let frame = near_frame(ways, problem, column, &left, point);
    let search = search_for(alloc, &frame)?;
    witness_of(alloc, &frame, &search, point)
}

/// Whether some valid path to a point has a bit of one's own, by a search for this point alone in blank memory.
pub(crate) fn has_near(
    alloc: Global,
    ways: &Ways,
    graph: &Graph<'_>,
    bit: &PointBit<'_>,
    search: &mut Search,
    point: u32,
) -> Result<bool, OutOfMemory>
    requires graph { graph.now ≡ ways.now.linked.program }
    requires search { search.old ≡ nothing_found (point_count ways.now.linked.program) }
    requires point { point < point_count ways.now.linked.program }
    ensures has { IfOk result (λ has. (has ≡ true)
        ↔ SomePathHas (directed_shape ways.now.linked) (point_transfer ways.now.linked.backward bit.now) point) }
    ensures points { OnOk result ((c : Claim) → (marks_of search.new c).points ≡ point_count ways.now.linked.program) }
{
    let left = left_of_point(alloc, ways, graph, bit, point)?;
    let frame = near_point_frame(ways, graph, bit, &left, point);
    run(alloc, &frame, &mut *search)?;
    Ok(has_bit(&frame, &*search, point))
}
