// What stands around a remark.
ghost use Rattle.std.specs.Prelude.{◌≡◌, ◌<◌, ◌↔◌, ◌+◌, true, IfOk, MatchOption, length};
ghost use Rattle.flow_graph.specs.Analyses.{shape_of};
ghost use Rattle.flow_graph.specs.Points.{point_count};
ghost use Rattle.flow_graph.specs.Runs.{IsDoubtful};
ghost use Rattle.flow_graph.specs.Universes.{expressions};
ghost use Rattle.flow_reasons.specs.Doubts.{IsDoubtOrigin};
ghost use Rattle.flow_reasons.specs.Holders.{HoldsValue};
ghost use Rattle.flow_reasons.specs.Lists.{AreAll};
ghost use Rattle.flow_reasons.specs.Reached.{IsLastReached, NoneReachedFrom};
ghost use Rattle.flow_reasons.specs.Meetings.{IsLastEvaluation, IsNextEvaluation, IsNextWrite, MayEndUnwritten};

use crate::OutOfMemory;
use crate::doubts::doubt_origin;
use crate::holders::{Asked, holders_of};
use crate::marks::{kill_marks, touch_marks};
use crate::met::{Search, met_points, path_has};
use crate::reached::last_reached;
use flow_graph::{Analysis, Graph};
use flow_why::{PointBit, Ways};
use gen_kill::Problem;
use std::alloc::Global;
use std::marker::Model;

/// A program's ways in both directions, and its problems, to be asked what stands around a remark.
///
/// Each question goes over all statements once, and makes one search for each of those that it is about, where it says nothing else. Memory
/// goes with the program.
pub struct Reasons<'g, 'p> {
    graph: &'g Graph<'p>,
    live: Problem<'g, 'p>,
    available: Problem<'g, 'p>,
    busy: Problem<'g, 'p>,
    forward: Ways,
    backward: Ways,
}

impl<'g, 'p> Model for Reasons<'g, 'p> {
    ghost use Rattle.flow_reasons.specs.code.Problems.{AreProblems};
    ghost use Rattle.tac_program.specs.Programs.{Program};

    ghost Value = { Program };

    ghost view = { λ reasons. reasons.graph.now };

    ghost invariant = { λ reasons. AreProblems reasons.graph.now reasons.live reasons.available reasons.busy
        reasons.forward.linked reasons.backward.linked };
}

impl Drop for Reasons<'_, '_> {
    // By hand: who gives reasons up then makes one call.
    fn drop(self) {
        let Reasons {
            graph: _,
            live: _,
            available: _,
            busy: _,
            forward: _,
            backward: _,
        } = self;
    }
}

impl<'g, 'p> Reasons<'g, 'p> {
    /// The reasons of a graph's program. Fails only where memory runs out.
    pub fn of(alloc: Global, graph: &'g Graph<'p>) -> Result<Self, OutOfMemory>
        ensures { IfOk result (λ reasons. reasons ≡ graph.now) }
    {
        // Its contract tells that the program is sound.
        let _ = graph.points();
        let live = Problem::of(alloc, graph, Analysis::Live)?;
        let available = Problem::of(alloc, graph, Analysis::Avail)?;
        let busy = Problem::of(alloc, graph, Analysis::Busy)?;
        let forward = Ways::of(alloc, &available)?;
        let backward = Ways::of(alloc, &live)?;
        Ok(Reasons {
            graph,
            live,
            available,
            busy,
            forward,
            backward,
        })
    }

    /// The points of all statements that may write a variable next, behind the point of a statement that goes on to the next point: where
    /// what is assigned there is overwritten, if it is a dead assignment. They rise. Fails only where memory runs out.
    ///
    /// A way is a backward valid path from behind the point to the end of `main`. What follows on other ways, which never end, is left out.
    pub fn next_writes(
        &self,
        alloc: Global,
        variable: u32,
        point: u32,
    ) -> Result<Vec<u32>, OutOfMemory>
        requires variable { variable < length self.now.variable_names }
        requires point { point + 1 < point_count self.now }
        ensures { IfOk result (λ list. AreAll (IsNextWrite self.now variable point) list.items) }
    {
        // Its contract tells that there are few points.
        let _ = self.graph.points();
        let writes = kill_marks(alloc, &self.live, variable)?;
        let search = Search {
            ways: &self.backward,
            graph: self.graph,
            stops: writes.as_slice(),
            at: point + 1,
        };
        met_points(alloc, &search, writes.as_slice())
    }

    /// Whether some such way comes to the end of `main` with no write of the variable. Fails only where memory runs out.
    pub fn may_end_unwritten(
        &self,
        alloc: Global,
        variable: u32,
        point: u32,
    ) -> Result<bool, OutOfMemory>
        requires variable { variable < length self.now.variable_names }
        requires point { point + 1 < point_count self.now }
        ensures { IfOk result (λ may. (may ≡ true) ↔ MayEndUnwritten self.now variable point) }
    {
        // Its contract tells that there are few points.
        let _ = self.graph.points();
        let writes = kill_marks(alloc, &self.live, variable)?;
        let bit = PointBit::new(&[], writes.as_slice(), true);
        path_has(alloc, &self.backward, self.graph, &bit, point + 1)
    }

    /// The points of all statements that may have evaluated an expression last, on the valid paths to a point: what is computed there
    /// already, if it is told so. They rise. Fails only where memory runs out.
    pub fn last_evaluations(
        &self,
        alloc: Global,
        expression: u32,
        point: u32,
    ) -> Result<Vec<u32>, OutOfMemory>
        requires expression { expression < length (expressions self.now) }
        requires point { point < point_count self.now }
        ensures { IfOk result (λ list. AreAll (IsLastEvaluation self.now expression point) list.items) }
    {
        let evaluates = kill_marks(alloc, &self.available, expression)?;
        let renews = touch_marks(alloc, &self.available, expression)?;
        let search = Search {
            ways: &self.forward,
            graph: self.graph,
            stops: renews.as_slice(),
            at: point,
        };
        met_points(alloc, &search, evaluates.as_slice())
    }

    /// The points of all statements that may evaluate an expression next, on the ways from a point to the end of `main`: what is very
    /// busy there, if it is told so. They rise. Fails only where memory runs out.
    pub fn next_evaluations(
        &self,
        alloc: Global,
        expression: u32,
        point: u32,
    ) -> Result<Vec<u32>, OutOfMemory>
        requires expression { expression < length (expressions self.now) }
        requires point { point < point_count self.now }
        ensures { IfOk result (λ list. AreAll (IsNextEvaluation self.now expression point) list.items) }
    {
        let evaluates = kill_marks(alloc, &self.busy, expression)?;
        let decides = touch_marks(alloc, &self.busy, expression)?;
        let search = Search {
            ways: &self.backward,
            graph: self.graph,
            stops: decides.as_slice(),
            at: point,
        };
        met_points(alloc, &search, evaluates.as_slice())
    }

    /// The numbers of all variables that hold the value of an expression at a point: on every valid path to it some statement assigned the
    /// expression to the variable, and neither the variable nor an operand has been written since. So each may be read there in place of
    /// computing the expression anew, if no other statement is changed. They rise. None where no valid path leads to the point. A copy of
    /// such a variable is not among them.
    ///
    /// It goes over all statements and makes one search for each variable to which some statement assigns the expression. Fails only where
    /// memory runs out.
    pub fn holders(
        &self,
        alloc: Global,
        expression: u32,
        point: u32,
    ) -> Result<Vec<u32>, OutOfMemory>
        requires expression { expression < length (expressions self.now) }
        requires point { point < point_count self.now }
        ensures { IfOk result (λ list. AreAll (HoldsValue self.now expression point) list.items) }
    {
        // Its contract tells that the program is sound.
        let _ = self.graph.points();
        let asked = Asked {
            graph: self.graph,
            live: &self.live,
            available: &self.available,
            ways: &self.forward,
            expression,
            at: point,
        };
        holders_of(alloc, &asked)
    }

    /// The nearest point before a point, in its procedure, to which a valid path leads: the last line before one that is never reached.
    /// From there control goes along the point's edges instead (`Graph::succ`), or into a call that does not come back. None where no valid
    /// path leads to any point of the procedure before it.
    ///
    /// Time goes with the points of the procedure, without a search.
    pub fn last_reached(&self, point: u32) -> Option<u32>
        requires { point < point_count self.now }
        ensures { MatchOption result (NoneReachedFrom self.now point 0) (λ found. IsLastReached self.now point found) }
    {
        last_reached(self.graph, &self.forward, point)
    }

    /// Why a point is doubtful: a point to which some path from it leads, and from which no valid path leads to the end of `main`. It may be
    /// the point itself. None exactly where the point is not doubtful.
    ///
    /// Edges are followed breadth first and at most once each, whichever call a return belongs to, as doubt spreads. Fails only where memory
    /// runs out.
    pub fn doubt_origin(&self, alloc: Global, point: u32) -> Result<Option<u32>, OutOfMemory>
        requires { point < point_count self.now }
        ensures { IfOk result (λ found. MatchOption found (¬ (IsDoubtful (shape_of self.now) point))
            (λ origin. IsDoubtOrigin self.now point origin)) }
    {
        doubt_origin(alloc, self.graph, &self.backward, point)
    }
}
