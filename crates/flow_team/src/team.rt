// An analysis by a team of workers.
ghost use Rattle.std.specs.Prelude.{◌≡◌, ◌↔◌, ◌⊎◌, ◌*◌, ◌^◌, ◌<◌, ◌≤◌, length, IfOk, IsNone, IsSome, Err};
ghost use Rattle.flow_graph.specs.Universes.{bits as bits_of};
ghost use Rattle.flow_team.specs.Tables.{IsTableOf};

use crate::OutOfMemory;
use crate::fault::TeamFault;
use crate::job::Job;
use crate::table::Table;
use bit_rows::Cut;
use flow_graph::{Analysis, Graph};
use slice_board::{Gate, Team};
use std::alloc::Global;
use std::thread::Threads;

// The width of the slices of tables that the team makes of its own.
const WIDEST: u32 = 4_096;

/// The table that a team makes, in these slices.
pub(crate) fn worked_table<'g, 'p, R: Threads + Sync, G: Gate>(
    team: &Team<'_, R, G>,
    alloc: Global,
    graph: &'g Graph<'p>,
    analysis: Analysis,
    cut: Cut,
) -> Result<Table, OutOfMemory>
    requires { cut.bits ≡ bits_of graph.now analysis }
    ensures analysis { IfOk result (λ table. table.analysis ≡ analysis) }
    ensures table { IfOk result (IsTableOf graph.now) }
{
    let (job, pass) = Job::open(alloc, graph, analysis, cut)?;
    let pass = job.run(team, alloc, pass)?;
    match job.close(pass) {
        Ok(table) => Ok(table),
        // The workers finished every slice: no other pass has a share of the board.
        Err(_) => unreachable!(),
    }
}

/// The table of an analysis of a graph, by so many workers, in slices of its bits: at each point exactly the union (may) or
/// intersection (must) over all interprocedurally valid paths, whatever the workers, the cut, and the order of their steps.
///
/// The workers are threads, numbered from 0, each with a pass of its own. Each draws slices, solves them and publishes them until none is
/// left, and tells the gate of it. The condition: the cut is of as many bits as the analysis has.
///
/// - `BadWorkers`: the number of workers is not one of 1 to 64. This is checked first.
/// - `OutOfMemory`: memory was refused, here or to a worker; all workers have ended.
pub fn analyse<'g, 'p, R: Threads + Sync, G: Gate>(
    rt: &R,
    alloc: Global,
    graph: &'g Graph<'p>,
    analysis: Analysis,
    cut: Cut,
    workers: u32,
    gate: &G,
) -> Result<Table, TeamFault>
    requires { cut.bits ≡ bits_of graph.now analysis }
    ensures analysis { IfOk result (λ table. table.analysis ≡ analysis) }
    ensures table { IfOk result (IsTableOf graph.now) }
    ensures bad_workers { (result ≡ Err TeamFault.BadWorkers) ↔ ((workers ≡ 0) ⊎ (64 < workers)) }
{
    let Some(team) = Team::of(rt, gate, workers, WIDEST) else {
        return Err(TeamFault::BadWorkers);
    };
    Ok(worked_table(&team, alloc, graph, analysis, cut)?)
}
