// The workers of a job.
ghost use Rattle.std.specs.Prelude.{◌≡◌, ◌<◌, IfOk};
ghost use Rattle.std.specs.Thread.{IsSync};
ghost use Rattle.slice_board.specs.Boards.{IsOf};
ghost use Rattle.slice_board.specs.Passes.{IsWhole, joined};
ghost use Rattle.slice_board.specs.Teams.{IsDrained, HaveSameShare};

use crate::OutOfMemory;
use crate::gate::{Gate, OpenGate};
use crate::pass::Pass;
use crate::rule::Wanted;
use crate::slice_job::SliceJob;
use crate::solve::Solve;
use crate::team::Team;
use std::alloc::Global;
use std::thread::{Threads, join};

// One worker: works until all slices are claimed.
fn drain_slices<W: Wanted + Sync + Send, S: Solve<W>, G: Gate>(
    alloc: Global,
    job: &SliceJob<W, S>,
    gate: &G,
    worker: u32,
    pass: Pass<W>,
) -> Result<Pass<W>, OutOfMemory>
    requires { IsOf job.now pass }
    ensures drained { IfOk result (IsDrained job.now) }
    ensures share { IfOk result (HaveSameShare pass) }
{
    let mut pass = pass;
    'slices: while job.work(alloc, &mut pass, worker, gate)?.is_some() {}
    // Its contract tells that what is not held is finished.
    let _ = pass.held();
    Ok(pass)
}

// The pass of both.
fn united_pass<W: Wanted + Sync + Send, S: Solve<W>>(
    job: &SliceJob<W, S>,
    first: Pass<W>,
    second: Pass<W>,
) -> Pass<W>
    requires first { IsDrained job.now first }
    requires second { IsDrained job.now second }
    ensures drained { IsDrained job.now result }
    ensures joined { result ≡ joined first second }
{
    match job.join(first, second) {
        Ok(pass) => pass,
        Err(_) => unreachable!(),
    }
}

// One worker on a thread of its own, for which this one waits.
fn run_thread<W: Wanted + Sync + Send, S: Solve<W>, R: Threads + Sync, G: Gate>(
    team: &Team<'_, R, G>,
    alloc: Global,
    job: &SliceJob<W, S>,
    worker: u32,
    pass: Pass<W>,
) -> Result<Pass<W>, OutOfMemory>
    requires { IsOf job.now pass }
    ensures drained { IfOk result (IsDrained job.now) }
    ensures share { IfOk result (HaveSameShare pass) }
{
    let gate = team.gate;
    let (worked, ()) = join(
        team.rt,
        move || -> Result<Pass<W>, OutOfMemory>
            requires { IsSync G.row × IsOf job.now pass }
            ensures drained { IfOk result (IsDrained job.entry.now) }
            ensures share { IfOk result (HaveSameShare pass) }
        { drain_slices(alloc, job, gate, worker, pass) },
        || {},
    );
    worked
}

// Runs the workers from a number on, each on a thread of its own, and answers the pass of all once all have ended.
fn run_threads<W: Wanted + Sync + Send, S: Solve<W>, R: Threads + Sync, G: Gate>(
    team: &Team<'_, R, G>,
    alloc: Global,
    job: &SliceJob<W, S>,
    from: u32,
    pass: Pass<W>,
) -> Result<Pass<W>, OutOfMemory>
    requires some { from < team.now.workers }
    requires pass { IsOf job.now pass }
    ensures drained { IfOk result (IsDrained job.now) }
    ensures share { IfOk result (HaveSameShare pass) }
{
    let next = from + 1;
    if next == team.workers {
        return run_thread(team, alloc, job, from, pass);
    }
    let gate = team.gate;
    let mut mine = pass;
    let theirs = job.split(&mut mine);
    let (mine, theirs) = join(
        team.rt,
        move || -> Result<Pass<W>, OutOfMemory>
            requires { IsSync G.row × IsOf job.now mine }
            ensures drained { IfOk result (IsDrained job.entry.now) }
            ensures share { IfOk result (HaveSameShare mine) }
        { drain_slices(alloc, job, gate, from, mine) },
        move || -> Result<Pass<W>, OutOfMemory>
            requires { IsSync R.row × IsSync G.row × (next < team.now.workers) × IsOf job.now theirs }
            ensures drained { IfOk result (IsDrained job.entry.now) }
            ensures share { IfOk result (HaveSameShare theirs) }
        { run_threads(team, alloc, job, next, theirs) },
    );
    Ok(united_pass(job, mine?, theirs?))
}

/// Runs a team's workers, numbered from 0, each on a thread of its own and with a pass of its own, and answers the pass of all once all have
/// ended: no slice is left, and each that was drawn is finished. The gate is told before and after. This thread waits: where it worked too,
/// a thread that it started could be kept waiting, on the same processor, for as long as the system lets one run.
///
/// `OutOfMemory`: a worker was refused memory, and may have left a slice unfinished.
pub fn run_workers<W: Wanted + Sync + Send, S: Solve<W>, R: Threads + Sync, G: Gate>(
    team: &Team<'_, R, G>,
    alloc: Global,
    job: &SliceJob<W, S>,
    pass: Pass<W>,
) -> Result<Pass<W>, OutOfMemory>
    requires { IsOf job.now pass }
    ensures drained { IfOk result (IsDrained job.now) }
    ensures whole { IfOk result (λ worked. IsWhole pass → IsWhole worked) }
{
    team.gate.begun(job.slices());
    let answered = run_threads(team, alloc, job, 0, pass);
    team.gate.ended();
    answered
}

/// Has the calling thread work until no slice is left, for a caller that may start no thread. Fails as [`run_workers`] does.
pub fn run_here<W: Wanted + Sync + Send, S: Solve<W>>(
    alloc: Global,
    job: &SliceJob<W, S>,
    pass: Pass<W>,
) -> Result<Pass<W>, OutOfMemory>
    requires { IsOf job.now pass }
    ensures drained { IfOk result (IsDrained job.now) }
    ensures whole { IfOk result (λ worked. IsWhole pass → IsWhole worked) }
{
    drain_slices(alloc, job, &OpenGate, 0, pass)
}
