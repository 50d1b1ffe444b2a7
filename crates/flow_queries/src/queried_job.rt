// The job of what is asked of a graph.
ghost use Rattle.std.specs.Prelude.{◌≡◌, ◌+◌, ◌*◌, ◌^◌, ◌<◌, ◌≤◌, length, IfOk};
ghost use Rattle.slice_board.specs.Boards.{fresh_pass};
ghost use Rattle.slice_board.specs.Passes.{IsWhole};
ghost use Rattle.slice_board.specs.Teams.{IsDrained};
ghost use Rattle.flow_queries.specs.Queries.{AreAnswers, AreQueriesOf};
ghost use Rattle.flow_queries.specs.code.Boards.{Arranges, ordered};
ghost use Rattle.flow_queries.specs.code.Cuts.{AreApart, EndTo};

use crate::OutOfMemory;
use crate::answers::Answers;
use crate::arrange::places_by;
use crate::packing::{packed_solvers, solver_among};
use crate::queried::{QueriedWords, first_word};
use crate::query::Query;
use crate::solvers::GraphSolvers;
use crate::splitting::split_queries;
use bit_rows::{Cut, CutFault};
use flow_team::SlicePlan;
use gk_solve::Solver;
use slice_board::{Pass, SliceJob, WordBoard};
use std::alloc::Global;

// Where slices of this plan end.
fn ends(
    alloc: Global,
    queried: &QueriedWords<'_, '_>,
    plan: SlicePlan,
) -> Result<Vec<u32>, OutOfMemory>
    ensures { IfOk result (λ ends. EndTo queried.now.order (length queried.now.order) (length queried.now.order) ends.items) }
{
    let mut ends = Vec::new(alloc);
    let count = queried.count();
    if count == 0 {
        return Ok(ends);
    }
    let mut before = queried.query(0);
    for j in 1..count {
        let here = queried.query(j);
        if queried.ends_between(plan, before, here) {
            ends.push(64 * j)?;
        }
        before = here;
    }
    Ok(ends)
}

// The queries cut into slices of this plan: each has queries of one analysis.
fn cut_of(
    alloc: Global,
    queried: &QueriedWords<'_, '_>,
    plan: SlicePlan,
) -> Result<Cut, OutOfMemory>
    ensures bits { IfOk result (λ cut. cut.bits ≡ 64 * length queried.now.order) }
    ensures apart { IfOk result (AreApart queried.now.order) }
{
    let ends = ends(alloc, queried, plan)?;
    match Cut::at(alloc, 64 * queried.count(), ends.as_slice()) {
        Ok(cut) => Ok(cut),
        Err(CutFault::OutOfMemory) => Err(OutOfMemory),
        Err(CutFault::BadPlaces | CutFault::ZeroWidth) => unreachable!(),
    }
}

/// A job of what is asked.
pub(crate) type QueriedJob<'g, 'p> = SliceJob<QueriedWords<'g, 'p>, QueriedWords<'g, 'p>>;

// The job of these queries, on a board with a word for each.
fn on_board<'g, 'p>(
    alloc: Global,
    queried: QueriedWords<'g, 'p>,
    cut: Cut,
) -> Result<(QueriedJob<'g, 'p>, Pass<QueriedWords<'g, 'p>>), OutOfMemory>
    requires bits { cut.bits ≡ 64 * length queried.order }
    requires apart { AreApart queried.order cut }
    ensures wanted { IfOk result (λ r. r.0.wanted ≡ queried.entry) }
    ensures pass { IfOk result (λ r. r.1 ≡ fresh_pass r.0) }
{
    let flags = vec![in alloc; false; 1]?;
    let (board, pass) = WordBoard::open(alloc, &queried, flags, cut)?;
    Ok((SliceJob::on_board(board, queried), pass))
}

// The word in which each query is solved.
fn solved_in<'g, 'p>(
    alloc: Global,
    solvers: &GraphSolvers<'g, 'p>,
    packed: &[Option<Solver<'g, 'p>>],
    queries: &[Query],
) -> Result<Vec<u32>, OutOfMemory>
    requires { length packed.now ≡ 4 }
    ensures { IfOk result (λ words. length words.items ≡ length queries.now) }
{
    let mut words = Vec::with_capacity(alloc, queries.len())?;
    for query in queries {
        let solver = solver_among(&*solvers, &*packed, query.analysis);
        words.push(first_word(solver.problem(), *query))?;
    }
    Ok(words)
}

// The numbers of queries in the order in which they are solved.
fn places_of<'g, 'p>(
    alloc: Global,
    solvers: &GraphSolvers<'g, 'p>,
    packed: &[Option<Solver<'g, 'p>>],
    queries: &[Query],
) -> Result<Vec<u32>, OutOfMemory>
    requires packed { length packed.now ≡ 4 }
    requires few { length queries.now < 2 ^ 32 }
    ensures { IfOk result (λ places. Arranges queries.now (ordered queries.now places.items) places.items) }
{
    let words = solved_in(alloc, &*solvers, &*packed, &*queries)?;
    places_by(alloc, queries, words.as_slice())
}

/// The job of these queries of a graph, in any order, in slices of so many bits, as [`SlicePlan`] rounds them, and a pass of it with empty lists.
pub(crate) fn queried_job<'g, 'p>(
    alloc: Global,
    solvers: GraphSolvers<'g, 'p>,
    queries: Vec<Query>,
    cut: u32,
) -> Result<(QueriedJob<'g, 'p>, Pass<QueriedWords<'g, 'p>>), OutOfMemory>
    requires queries { AreQueriesOf solvers queries.items }
    requires few { 64 * length queries.items < 2 ^ 32 }
    ensures program { IfOk result (λ r. r.0.wanted.program ≡ solvers.entry) }
    ensures queries { IfOk result (λ r. r.0.wanted.queries ≡ queries.items) }
    ensures pass { IfOk result (λ r. r.1 ≡ fresh_pass r.0) }
{
    let split = split_queries(alloc, &solvers, queries.as_slice())?;
    let packed = packed_solvers(alloc, solvers.graph(), split.left.as_slice())?;
    let places = places_of(alloc, &solvers, packed.as_slice(), queries.as_slice())?;
    let plan = SlicePlan::of(solvers.points(), cut);
    let queried = QueriedWords::of(solvers, packed, queries, split, places);
    let cut = cut_of(alloc, &queried, plan)?;
    on_board(alloc, queried, cut)
}

/// The answers, once the workers have finished every slice, and the solvers.
pub(crate) fn answers_of<'g, 'p>(
    alloc: Global,
    job: QueriedJob<'g, 'p>,
    pass: Pass<QueriedWords<'g, 'p>>,
) -> Result<(Answers, GraphSolvers<'g, 'p>), OutOfMemory>
    requires drained { IsDrained job pass }
    requires whole { IsWhole pass }
    ensures queries { IfOk result (λ r. r.0.queries ≡ job.entry.wanted.queries) }
    ensures answers { IfOk result (λ r. AreAnswers job.entry.wanted.program r.0) }
    ensures solvers { IfOk result (λ r. r.1 ≡ job.entry.wanted.program) }
{
    match job.close(pass) {
        Ok((queried, posted)) => Answers::of(alloc, queried, &posted),
        // No other pass has a share of the board.
        Err(_) => unreachable!(),
    }
}
