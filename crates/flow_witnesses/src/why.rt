// Why a bit is in the sets of points.
ghost use Rattle.std.specs.Prelude.{◌≡◌, ℕ, false, ◌<◌, ◌≤◌, ◌*◌, IfOk, IfSome, MatchOption, length};
ghost use Rattle.flow_graph.specs.Paths.{SomePathHas};
ghost use Rattle.flow_graph.specs.Points.{point_count};
ghost use Rattle.flow_graph.specs.Problems.{may_shape};
ghost use Rattle.gen_kill.specs.Selections.{column_count, column_transfer};
ghost use Rattle.flow_why.specs.Directed.{direction_of};
ghost use Rattle.flow_why.specs.Witnesses.{IsNeverPassed, IsThroughWitness, IsWitness};
ghost use Rattle.flow_links.specs.Shapes.{directed_shape};
ghost use Rattle.flow_why.specs.code.Closed.{IsGround, IsScope};
ghost use Rattle.flow_why.specs.code.Frames.{question_of};
ghost use Rattle.flow_why.specs.code.Marked.{BaseHas};
ghost use Rattle.flow_why.specs.code.Trails.{IsAskedFrame};
ghost use Rattle.flow_why.specs.code.Ways.{IsAnswered, IsOver, bit_question};

use crate::OutOfMemory;
use crate::answers::{through_of, witness_of};
use flow_why::frame::{Asked, Frame, Scope};
use flow_why::hop::{Effect, Hop};
use flow_why::run::search_for;
use flow_why::search::Search;
use flow_why::ways::Ways;
use gen_kill::Problem;
use std::alloc::Global;
use std::marker::Model;

/// The frame of a search for a bit.
pub(crate) fn frame_of<'a, 'g, 'p>(
    ways: &'a Ways,
    problem: &'a Problem<'g, 'p>,
    column: u32,
) -> Frame<'a, 'g, 'p>
    requires { IsOver ways.now (record { form = problem.now; column = column }) }
    ensures frame { IsAskedFrame result }
    ensures ground { IsGround (directed_shape result.links.now) (BaseHas result.base.now) }
    ensures question { question_of result ≡ bit_question ways.now (record { form = problem.now; column = column }) }
    ensures scope { IsScope (directed_shape result.links.now) (question_of result).scope }
    ensures into { (p : ℕ) → (question_of result).scope.skipped p ≡ false }
{
    Frame {
        links: ways.links(),
        asked: Asked::Column(problem, column),
        base: ways.search(),
        scope: Scope::whole(),
    }
}

/// What is found of a bit of a problem at all points: why it is in the set of each where it is.
///
/// A search takes time that goes with the number of points and edges, and memory that goes with the number of points and of those where
/// something was found. It serves every point.
pub struct Why<'a, 'g, 'p> {
    ways: &'a Ways,
    problem: &'a Problem<'g, 'p>,
    column: u32,
    search: Search,
}

impl<'a, 'g, 'p> Model for Why<'a, 'g, 'p> {
    ghost use Rattle.flow_why.specs.code.Ways.{AskedBit, IsAnswered};

    ghost Value = { AskedBit };

    ghost view = { λ why. record { form = why.problem.now; column = why.column } };

    ghost invariant = { λ why. IsAnswered why.ways.now (record { form = why.problem.now; column = why.column }) why.search };
}

impl Drop for Why<'_, '_, '_> {
    // By hand: who gives a search up then makes one call.
    fn drop(self) {
        let Why {
            ways: _,
            problem: _,
            column: _,
            search: _,
        } = self;
    }
}

impl<'a, 'g, 'p> Why<'a, 'g, 'p> {
    /// Searches for a column's bit, over the ways of the problem's direction. Fails only where memory runs out.
    pub fn of(
        alloc: Global,
        ways: &'a Ways,
        problem: &'a Problem<'g, 'p>,
        column: u32,
    ) -> Result<Self, OutOfMemory>
        requires ways { ways.now.linked ≡ direction_of problem.now }
        requires column { column < column_count problem.now }
        ensures { IfOk result (λ why. why ≡ record { form = problem.now; column = column }) }
    {
        let search = bit_search(alloc, ways, problem, column)?;
        Ok(Why {
            ways,
            problem,
            column,
            search,
        })
    }

    /// A witness of the bit at a point, in the direction of the analysis: hops from where the problem begins to the point. None where the
    /// bit is not in the set of the may form there. Fails only where memory runs out.
    ///
    /// It is short, since points are found breadth first; that none is shorter is not promised.
    pub fn witness(&self, alloc: Global, point: u32) -> Result<Option<Vec<Hop>>, OutOfMemory>
        requires { point < point_count self.now.form.program }
        ensures witness { IfOk result (λ found. MatchOption found
            (SomePathHas (may_shape self.now.form.program self.now.form.analysis) (column_transfer self.now.form self.now.column) point → ⊥)
            (λ hops. IsWitness (may_shape self.now.form.program self.now.form.analysis)
            (column_transfer self.now.form self.now.column) point hops.items)) }
        ensures short { IfOk result (λ found. IfSome found (λ hops. length hops.items ≤ 2 * point_count self.now.form.program)) }
    {
        let frame = frame_of(self.ways, self.problem, self.column);
        witness_of(alloc, &frame, &self.search, point)
    }

    /// One way through a callee, from its entry to its exit, that has an effect: one level of a call that a witness passes is unfolded so, and
    /// again what these hops pass. None where no path through the callee has the effect, at least if it is called where a witness may
    /// pass it: from a point to which a valid path leads, for [`Effect::Preserves`] one that has the bit. Fails only where memory runs out.
    pub fn through(
        &self,
        alloc: Global,
        callee: u32,
        effect: Effect,
    ) -> Result<Option<Vec<Hop>>, OutOfMemory>
        requires { callee < (may_shape self.now.form.program self.now.form.analysis).procedures }
        ensures { IfOk result (λ found. MatchOption found
            (IsNeverPassed (may_shape self.now.form.program self.now.form.analysis) (column_transfer self.now.form self.now.column) callee effect)
            (λ hops. IsThroughWitness (may_shape self.now.form.program self.now.form.analysis) (column_transfer self.now.form self.now.column)
            callee effect hops.items)) }
    {
        let frame = frame_of(self.ways, self.problem, self.column);
        through_of(alloc, &frame, &self.search, callee, effect)
    }
}

// What is found of a bit.
fn bit_search(
    alloc: Global,
    ways: &Ways,
    problem: &Problem<'_, '_>,
    column: u32,
) -> Result<Search, OutOfMemory>
    requires { IsOver ways.now (record { form = problem.now; column = column }) }
    ensures { IfOk result (λ search. IsAnswered ways.now (record { form = problem.now; column = column }) search) }
{
    let frame = frame_of(ways, problem, column);
    search_for(alloc, &frame)
}
