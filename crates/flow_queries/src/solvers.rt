// Solvers of all analyses of a graph.
ghost use Rattle.std.specs.Prelude.{◌≡◌, ◌*◌, ◌^◌, ◌<◌, length, IfOk};
ghost use Rattle.flow_graph.specs.Directions.{goes_backward};
ghost use Rattle.gen_kill.specs.Selections.{may_form};
ghost use Rattle.gk_solve.specs.Solved.{HasPathFlags, direction_of};
ghost use Rattle.flow_queries.specs.Queries.{AreAnswers, AreQueriesOf};
ghost use Rattle.flow_queries.specs.code.Directions.{selection_of};

use crate::OutOfMemory;
use crate::answers::Answers;
use crate::direction::DirectionSolvers;
use crate::queried_job::{answers_of, queried_job};
use crate::query::Query;
use busy_bounds::BusyBounds;
use flow_graph::{Analysis, Direction, Graph};
use flow_team::{Half, side_by_side};
use gk_solve::{Routes, Solver};
use slice_board::{Gate, Team, run_here, run_workers};
use std::alloc::Global;
use std::marker::Model;
use std::thread::Threads;

// What finds a direction of a graph.
#[derive(Clone, Copy)]
struct Finding<'g, 'p> {
    graph: &'g Graph<'p>,
    direction: Direction,
}

impl<'g, 'p> Half<DirectionSolvers<'g, 'p>> for Finding<'g, 'p> {
    ghost gives = { λ finding d. d ≡ record { program = finding.graph.now; backward = goes_backward finding.direction } };

    fn find(self, alloc: Global) -> Result<DirectionSolvers<'g, 'p>, OutOfMemory> {
        DirectionSolvers::of(alloc, self.graph, self.direction)
    }
}

/// Solvers of a graph's four analyses: made once, for what is asked of them time after time.
pub struct GraphSolvers<'g, 'p> {
    forward: DirectionSolvers<'g, 'p>,
    backward: DirectionSolvers<'g, 'p>,
}

impl<'g, 'p> Model for GraphSolvers<'g, 'p> {
    ghost use Rattle.flow_queries.specs.code.Boards.{AreDirections};
    ghost use Rattle.tac_program.specs.Programs.{Program};

    ghost Value = { Program };

    ghost view = { λ s. s.forward.program };

    ghost invariant = { λ s. AreDirections s.forward.program s.forward s.backward };
}

impl Drop for GraphSolvers<'_, '_> {
    // By hand: who gives them up then makes one call.
    fn drop(self) {
        let GraphSolvers {
            forward: _,
            backward: _,
        } = self;
    }
}

impl<'g, 'p> GraphSolvers<'g, 'p> {
    /// The solvers of a graph, made side by side where there are several workers. Fails only where memory runs out.
    pub fn of<R: Threads + Sync, G>(
        team: &Team<'_, R, G>,
        alloc: Global,
        graph: &'g Graph<'p>,
    ) -> Result<Self, OutOfMemory>
        ensures { IfOk result (λ solvers. solvers ≡ graph.now) }
    {
        if team.workers == 1 {
            return GraphSolvers::of_here(alloc, graph);
        }
        let forward = Finding {
            graph,
            direction: Direction::Forward,
        };
        let backward = Finding {
            graph,
            direction: Direction::Backward,
        };
        let (forward, backward) = side_by_side(team.rt, alloc, forward, backward);
        Ok(GraphSolvers {
            forward: forward?,
            backward: backward?,
        })
    }

    /// The solvers of a graph, made on the calling thread. Fails only where memory runs out.
    pub fn of_here(alloc: Global, graph: &'g Graph<'p>) -> Result<Self, OutOfMemory>
        ensures { IfOk result (λ solvers. solvers ≡ graph.now) }
    {
        let forward = DirectionSolvers::of(alloc, graph, Direction::Forward)?;
        let backward = DirectionSolvers::of(alloc, graph, Direction::Backward)?;
        Ok(GraphSolvers { forward, backward })
    }

    // What solves the analyses that go one way.
    fn direction(&self, direction: Direction) -> &DirectionSolvers<'g, 'p>
        ensures { result.now ≡ record { program = self.now; backward = goes_backward direction } }
    {
        match direction {
            Direction::Forward => &self.forward,
            Direction::Backward => &self.backward,
        }
    }

    /// The graph.
    pub(crate) fn graph(&self) -> &'g Graph<'p>
        ensures { result.now ≡ self.now }
    {
        self.solver(Analysis::Reach).problem().graph()
    }

    /// The solver of all bits of an analysis.
    pub(crate) fn solver(&self, analysis: Analysis) -> &Solver<'g, 'p>
        ensures { result.now ≡ selection_of self.now analysis }
    {
        self.direction(analysis.direction()).solver(analysis)
    }

    /// The edges and paths by which an analysis is solved.
    pub(crate) fn routes(&self, analysis: Analysis) -> &Routes
        ensures { result.now ≡ direction_of (selection_of self.now analysis) }
    {
        self.direction(analysis.direction()).routes()
    }

    /// For each point some expressions among which all are that are very busy there. Fails only where memory runs out.
    pub fn busy_bounds(&self, alloc: Global) -> Result<BusyBounds, OutOfMemory>
        ensures { IfOk result (λ bounds. bounds ≡ self.now) }
    {
        let problem = self.solver(Analysis::Busy).problem();
        let links = self.routes(Analysis::Busy).links();
        BusyBounds::of(alloc, self.graph(), problem, links)
    }

    /// How many points there are.
    pub(crate) fn points(&self) -> u32 {
        self.forward.points()
    }

    /// The path flags by which an analysis is solved. Fails only where memory runs out.
    pub(crate) fn flags(&self, alloc: Global, analysis: Analysis) -> Result<Vec<bool>, OutOfMemory>
        ensures { IfOk result (λ flags. HasPathFlags (may_form (selection_of self.now analysis)) flags.items) }
    {
        self.solver(analysis).flags(alloc, self.routes(analysis))
    }

    /// The words that are asked, found by a team in slices of its width, as [`answer`](crate::answer) has it, and the solvers for what is
    /// asked next.
    ///
    /// The conditions: each query is of the graph's program, and there are fewer than 2^26. Fails only where memory runs out, and then the
    /// solvers are gone.
    pub fn answer<R: Threads + Sync, G: Gate>(
        self,
        team: &Team<'_, R, G>,
        alloc: Global,
        queries: Vec<Query>,
    ) -> Result<(Answers, Self), OutOfMemory>
        requires queries { AreQueriesOf self queries.items }
        requires few { 64 * length queries.items < 2 ^ 32 }
        ensures queries { IfOk result (λ r. r.0.queries ≡ queries.items) }
        ensures answers { IfOk result (λ r. AreAnswers self.entry r.0) }
        ensures solvers { IfOk result (λ r. r.1 ≡ self.entry) }
    {
        let (job, pass) = queried_job(alloc, self, queries, team.cut)?;
        let pass = run_workers(team, alloc, &job, pass)?;
        answers_of(alloc, job, pass)
    }

    /// The same, found on the calling thread, for a caller that may start none.
    pub fn answer_here(
        self,
        alloc: Global,
        queries: Vec<Query>,
    ) -> Result<(Answers, Self), OutOfMemory>
        requires queries { AreQueriesOf self queries.items }
        requires few { 64 * length queries.items < 2 ^ 32 }
        ensures queries { IfOk result (λ r. r.0.queries ≡ queries.items) }
        ensures answers { IfOk result (λ r. AreAnswers self.entry r.0) }
        ensures solvers { IfOk result (λ r. r.1 ≡ self.entry) }
    {
        let (job, pass) = queried_job(alloc, self, queries, 1)?;
        let pass = run_here(alloc, &job, pass)?;
        answers_of(alloc, job, pass)
    }
}
