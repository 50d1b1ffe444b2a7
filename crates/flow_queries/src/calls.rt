// What is asked of a graph's analyses, by a team of workers or on the calling thread.
ghost use Rattle.std.specs.Prelude.{◌≡◌, ◌↔◌, ◌⊎◌, ◌*◌, ◌^◌, ◌<◌, ◌≤◌, length, IfOk, Err};
ghost use Rattle.flow_queries.specs.Queries.{AreAnswers, AreQueriesOf};

use crate::OutOfMemory;
use crate::answers::Answers;
use crate::query::Query;
use crate::solvers::GraphSolvers;
use flow_graph::Graph;
use flow_team::TeamFault;
use slice_board::{Gate, Team};
use std::alloc::Global;
use std::thread::Threads;

// The widest slices that may be, in bits.
const WIDEST: u32 = 4_096;

// The answers that a team finds.
fn worked_answers<'g, 'p, R: Threads + Sync, G: Gate>(
    team: &Team<'_, R, G>,
    alloc: Global,
    graph: &'g Graph<'p>,
    queries: Vec<Query>,
) -> Result<Answers, OutOfMemory>
    requires queries { AreQueriesOf graph.now queries.items }
    requires few { 64 * length queries.items < 2 ^ 32 }
    ensures queries { IfOk result (λ r. r.queries ≡ queries.items) }
    ensures answers { IfOk result (AreAnswers graph.now) }
{
    let solvers = GraphSolvers::of(team, alloc, graph)?;
    let (answers, _solvers) = solvers.answer(team, alloc, queries)?;
    Ok(answers)
}

/// The bits that are asked of a graph's four analyses, by so many workers: of each query those in the analysis's set at its point,
/// exactly the union or intersection over all valid paths, as [`analyse`](flow_team::analyse) finds them.
///
/// The queries come in any order. They are solved in slices of `cut` bits, brought within 1 to 4,096, as [`SlicePlan`](crate::SlicePlan) rounds
/// them up. The conditions: each query is of the graph's program, and there are fewer than 2^26.
///
/// - `BadWorkers`: the number of workers is not one of 1 to 64. This is checked first.
/// - `OutOfMemory`: memory was refused, here or to a worker; all workers have ended.
pub fn answer<'g, 'p, R: Threads + Sync, G: Gate>(
    rt: &R,
    alloc: Global,
    graph: &'g Graph<'p>,
    queries: Vec<Query>,
    cut: u32,
    workers: u32,
    gate: &G,
) -> Result<Answers, TeamFault>
    requires queries { AreQueriesOf graph.now queries.items }
    requires few { 64 * length queries.items < 2 ^ 32 }
    ensures queries { IfOk result (λ r. r.queries ≡ queries.items) }
    ensures answers { IfOk result (AreAnswers graph.now) }
    ensures bad_workers { (result ≡ Err TeamFault.BadWorkers) ↔ ((workers ≡ 0) ⊎ (64 < workers)) }
{
    let Some(team) = Team::of(rt, gate, workers, cut.clamp(1, WIDEST)) else {
        return Err(TeamFault::BadWorkers);
    };
    Ok(worked_answers(&team, alloc, graph, queries)?)
}

/// What [`answer`] tells, found on the calling thread, for a caller that may start none. Fails only where memory runs out.
pub fn answer_here(
    alloc: Global,
    graph: &Graph<'_>,
    queries: Vec<Query>,
) -> Result<Answers, OutOfMemory>
    requires queries { AreQueriesOf graph.now queries.items }
    requires few { 64 * length queries.items < 2 ^ 32 }
    ensures queries { IfOk result (λ r. r.queries ≡ queries.items) }
    ensures answers { IfOk result (AreAnswers graph.now) }
{
    let solvers = GraphSolvers::of_here(alloc, graph)?;
    let (answers, _solvers) = solvers.answer_here(alloc, queries)?;
    Ok(answers)
}
