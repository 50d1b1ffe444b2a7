// What solves the analyses of a direction.
ghost use Rattle.std.specs.Prelude.{◌≡◌, Some, slice_get, IfOk};
ghost use Rattle.flow_graph.specs.Analyses.{is_backward};
ghost use Rattle.flow_graph.specs.Directions.{goes_backward};
ghost use Rattle.flow_queries.specs.code.Directions.{analyses_of, selection_of};

use crate::OutOfMemory;
use flow_graph::{Analysis, Direction, Graph};
use gen_kill::Problem;
use gk_solve::{Routes, Solver};
use std::alloc::Global;
use std::marker::Model;

/// Solvers of a graph's analyses that go one way, and the edges and paths, which all of them share.
pub(crate) struct DirectionSolvers<'g, 'p> {
    graph: &'g Graph<'p>,
    // In the order of the direction's analyses.
    solvers: Vec<Solver<'g, 'p>>,
    routes: Routes,
}

impl<'g, 'p> Model for DirectionSolvers<'g, 'p> {
    ghost use Rattle.flow_links.specs.Shapes.{LinkedProgram};
    ghost use Rattle.flow_queries.specs.code.Directions.{AreSolversOf};

    ghost Value = { LinkedProgram };

    ghost view = { λ d. d.routes };

    ghost invariant = { λ d. AreSolversOf d.routes d.solvers.items };
}

impl Drop for DirectionSolvers<'_, '_> {
    // By hand: who gives a direction up then makes one call.
    fn drop(self) {
        let DirectionSolvers {
            graph: _,
            solvers: _,
            routes: _,
        } = self;
    }
}

// The solver of an analysis of a graph.
fn solver_of<'g, 'p>(
    alloc: Global,
    graph: &'g Graph<'p>,
    analysis: Analysis,
) -> Result<Solver<'g, 'p>, OutOfMemory>
    ensures { IfOk result (λ solver. solver ≡ selection_of graph.now analysis) }
{
    let problem = Problem::of(alloc, graph, analysis)?;
    Solver::of(alloc, problem)
}

// The place of an analysis among those of its direction.
fn place_of(analysis: Analysis) -> usize
    ensures { slice_get (analyses_of (is_backward analysis)) result ≡ Some analysis }
{
    match analysis {
        Analysis::Reach | Analysis::Live => 0,
        Analysis::Avail | Analysis::Busy => 1,
    }
}

impl<'g, 'p> DirectionSolvers<'g, 'p> {
    /// The analyses of a graph that go one way. Fails only where memory runs out.
    pub(crate) fn of(
        alloc: Global,
        graph: &'g Graph<'p>,
        direction: Direction,
    ) -> Result<Self, OutOfMemory>
        ensures { IfOk result (λ d. d ≡ record { program = graph.now; backward = goes_backward direction }) }
    {
        let mut solvers = Vec::new(alloc);
        for analysis in direction.analyses() {
            solvers.push(solver_of(alloc, graph, *analysis)?)?;
        }
        let routes = Routes::of(alloc, solvers[0].problem())?;
        Ok(DirectionSolvers {
            graph,
            solvers,
            routes,
        })
    }

    /// How many points there are.
    pub(crate) fn points(&self) -> u32 {
        self.graph.points()
    }

    /// The solver of an analysis of the direction.
    pub(crate) fn solver(&self, analysis: Analysis) -> &Solver<'g, 'p>
        requires { is_backward analysis ≡ self.now.backward }
        ensures { result.now ≡ selection_of self.now.program analysis }
    {
        &self.solvers[place_of(analysis)]
    }

    /// The edges and paths of all.
    pub(crate) fn routes(&self) -> &Routes
        ensures { result.now ≡ self.now }
    {
        &self.routes
    }
}
