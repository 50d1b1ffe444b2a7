// Why a bit of one's own is there at points.
ghost use Rattle.std.specs.Prelude.{◌≡◌, ℕ, false, ◌<◌, ◌≤◌, ◌*◌, ◌↔◌, true, IfOk, IfSome, MatchOption, length};
ghost use Rattle.flow_graph.specs.Paths.{SomePathHas};
ghost use Rattle.flow_graph.specs.Points.{point_count};
ghost use Rattle.flow_links.specs.Shapes.{directed_shape};
ghost use Rattle.flow_why.specs.PointBits.{asked_transfer};
ghost use Rattle.flow_why.specs.Witnesses.{IsNeverPassed, IsThroughWitness, IsWitness};
ghost use Rattle.flow_why.specs.code.Closed.{IsGround, IsScope};
ghost use Rattle.flow_why.specs.code.Frames.{question_of};
ghost use Rattle.flow_why.specs.code.Marked.{BaseHas};
ghost use Rattle.flow_why.specs.code.Trails.{IsAskedFrame};
ghost use Rattle.flow_why.specs.code.Ways.{IsPointAnswered, point_question};

use crate::OutOfMemory;
use crate::answers::{has_bit, through_of, witness_of};
use flow_graph::Graph;
use flow_why::frame::{Asked, Frame, Scope};
use flow_why::hop::{Effect, Hop};
use flow_why::point_bit::PointBit;
use flow_why::run::search_for;
use flow_why::search::Search;
use flow_why::ways::Ways;
use std::alloc::Global;
use std::marker::Model;

/// The frame of a search for a bit of one's own.
pub(crate) fn point_frame<'a, 'p>(
    ways: &'a Ways,
    graph: &'a Graph<'p>,
    bit: &'a PointBit<'a>,
) -> Frame<'a, 'a, 'p>
    requires { graph.now ≡ ways.now.linked.program }
    ensures frame { IsAskedFrame result }
    ensures ground { IsGround (directed_shape result.links.now) (BaseHas result.base.now) }
    ensures question { question_of result ≡ point_question ways.now bit.now }
    ensures scope { IsScope (directed_shape result.links.now) (question_of result).scope }
    ensures into { (p : ℕ) → (question_of result).scope.skipped p ≡ false }
{
    Frame {
        links: ways.links(),
        asked: Asked::Points(graph, bit),
        base: ways.search(),
        scope: Scope::whole(),
    }
}

// What is found of a bit of one's own.
fn point_search(
    alloc: Global,
    ways: &Ways,
    graph: &Graph<'_>,
    bit: &PointBit<'_>,
) -> Result<Search, OutOfMemory>
    requires { graph.now ≡ ways.now.linked.program }
    ensures { IfOk result (λ search. IsPointAnswered ways.now graph.now bit.now search) }
{
    let frame = point_frame(ways, graph, bit);
    search_for(alloc, &frame)
}

/// What is found of a bit of one's own at all points, over ways of either direction: whether it is there, and why.
///
/// A search takes time that goes with the edges of what it finds, and memory that goes with the number of points. It serves every point.
pub struct PointWhy<'a, 'p> {
    ways: &'a Ways,
    graph: &'a Graph<'p>,
    bit: &'a PointBit<'a>,
    search: Search,
}

impl<'a, 'p> Model for PointWhy<'a, 'p> {
    ghost use Rattle.flow_why.specs.PointBits.{AskedPoints};
    ghost use Rattle.flow_why.specs.code.Ways.{IsPointAnswered};

    ghost Value = { AskedPoints };

    ghost view = { λ why. record { linked = why.ways.now.linked; bit = why.bit.now } };

    ghost invariant = { λ why. IsPointAnswered why.ways.now why.graph.now why.bit.now why.search };
}

impl Drop for PointWhy<'_, '_> {
    // By hand: who gives a search up then makes one call.
    fn drop(self) {
        let PointWhy {
            ways: _,
            graph: _,
            bit: _,
            search: _,
        } = self;
    }
}

impl<'a, 'p> PointWhy<'a, 'p> {
    /// Searches for a bit over the ways of a graph's program. Fails only where memory runs out.
    pub fn of(
        alloc: Global,
        ways: &'a Ways,
        graph: &'a Graph<'p>,
        bit: &'a PointBit<'a>,
    ) -> Result<Self, OutOfMemory>
        requires { graph.now ≡ ways.now.linked.program }
        ensures { IfOk result (λ why. why ≡ record { linked = ways.now.linked; bit = bit.now }) }
    {
        let search = point_search(alloc, ways, graph, bit)?;
        Ok(PointWhy {
            ways,
            graph,
            bit,
            search,
        })
    }

    /// Whether some valid path to a point has the bit, in the direction of the ways. The answer is ready: no search is made.
    pub fn has(&self, point: u32) -> bool
        requires { point < point_count self.now.linked.program }
        ensures { (result ≡ true) ↔ SomePathHas (directed_shape self.now.linked) (asked_transfer self.now) point }
    {
        let frame = point_frame(self.ways, self.graph, self.bit);
        has_bit(&frame, &self.search, point)
    }

    /// A witness of the bit at a point, in the direction of the ways: hops from where they begin to the point. None where no valid path to
    /// the point has the bit. Fails only where memory runs out.
    ///
    /// It is short, since points are found breadth first; that none is shorter is not promised.
    pub fn witness(&self, alloc: Global, point: u32) -> Result<Option<Vec<Hop>>, OutOfMemory>
        requires { point < point_count self.now.linked.program }
        ensures witness { IfOk result (λ found. MatchOption found
            (SomePathHas (directed_shape self.now.linked) (asked_transfer self.now) point → ⊥)
            (λ hops. IsWitness (directed_shape self.now.linked) (asked_transfer self.now) point hops.items)) }
        ensures short { IfOk result (λ found. IfSome found (λ hops. length hops.items ≤ 2 * point_count self.now.linked.program)) }
    {
        let frame = point_frame(self.ways, self.graph, self.bit);
        witness_of(alloc, &frame, &self.search, point)
    }

    /// One way through a callee, from its entry to its exit, that has an effect, as [`Why::through`](crate::Why::through) tells it.
    pub fn through(
        &self,
        alloc: Global,
        callee: u32,
        effect: Effect,
    ) -> Result<Option<Vec<Hop>>, OutOfMemory>
        requires { callee < (directed_shape self.now.linked).procedures }
        ensures { IfOk result (λ found. MatchOption found
            (IsNeverPassed (directed_shape self.now.linked) (asked_transfer self.now) callee effect)
            (λ hops. IsThroughWitness (directed_shape self.now.linked) (asked_transfer self.now) callee effect hops.items)) }
    {
        let frame = point_frame(self.ways, self.graph, self.bit);
        through_of(alloc, &frame, &self.search, callee, effect)
    }
}
