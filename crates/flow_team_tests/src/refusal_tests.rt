// What is left where memory is refused on the way, as `test_support` has it.

ghost use Rattle.std.specs.Prelude.{IfOk};
ghost use Rattle.flow_team.specs.Tables.{IsTableOf};
ghost use Rattle.slice_board.specs.Boards.{IsOf};

use crate::excerpt_tests::{Excerpt, RECURSIVE_REACH_BEHIND, lines_of_excerpt};
use crate::job_tests::{closed, opened};
use crate::questions::{Question, check};
use flow_graph::{Analysis, Graph};
use flow_team::{GraphSets, Job, OpenGate, OutOfMemory, Table, TeamFault, analyse};
use slice_board::{Pass, Wanted};
use std::alloc::Global;
use std::process::Abort;
use std::test::Fail;
use std::thread::Threads;
use team_probes::{RECURSIVE_REACH, Recorder, answered_again, left_by, lines, slices};
use test_support::worked_programs::recursion;

// The lines of reaching definitions, in three slices by so many workers.
#[derive(Clone, Copy)]
struct ByWorkers<'a> {
    workers: u32,
    gate: &'a Recorder,
}

impl<'a> Question for ByWorkers<'a> {
    fn answer<R: Threads + Sync + Abort>(
        &self,
        rt: &R,
        alloc: Global,
        graph: &Graph<'_>,
    ) -> Result<String, Fail> {
        let cut = slices(alloc, graph, Analysis::Reach, 1)?;
        match analyse(
            rt,
            alloc,
            graph,
            Analysis::Reach,
            cut,
            self.workers,
            self.gate,
        ) {
            Ok(table) => Ok(lines(alloc, graph, &table)?),
            Err(TeamFault::OutOfMemory) => Err(left_by("analyse", self.gate)),
            Err(TeamFault::BadWorkers) => Err(Fail::new("workers that are refused")),
        }
    }
}

// The lines of the recursive program, or which slice was left.
fn check_by_workers<R: Threads + Sync + Abort + AllocGlobal>(
    rt: &R,
    workers: u32,
) -> Result<(), Fail> {
    let gate = Recorder::new();
    let how = ByWorkers {
        workers,
        gate: &gate,
    };
    check_counts(rt, &how)
}

#[test]
fn one_worker_is_refused(rt: HostRuntime) -> Result<(), Fail> {
    check_by_workers(&rt, 1)
}

#[test]
fn two_workers_are_refused(rt: HostRuntime) -> Result<(), Fail> {
    check_by_workers(&rt, 2)
}

// How often slices were told: those that were claimed and finished as bits, and how often each.
type Counts = (u64, u64, u32, u32);

// The slices of the recursive program's job, with what is told while one is held and once it is finished.
const SLICES: &[(u32, Counts, Counts)] = &[
    (0, (1, 0, 1, 0), (1, 1, 1, 1)),
    (1, (3, 1, 2, 1), (3, 3, 2, 2)),
    (2, (7, 3, 3, 2), (7, 7, 3, 3)),
];

// The pass holds the slice that was refused: it is claimed, and not finished.
fn check_held<W: Wanted, R: Abort>(
    rt: &R,
    pass: &Pass<W>,
    gate: &Recorder,
    slice: u32,
    counts: Counts,
) {
    assert_eq!(rt; pass.held(), Some(slice));
    assert_eq!(rt; gate.counts(), counts, "slice {slice} is held");
}

// The call worked this slice, and the pass holds none.
fn check_worked<W: Wanted, R: Abort>(
    rt: &R,
    worked: Option<u32>,
    pass: &Pass<W>,
    gate: &Recorder,
    slice: u32,
    counts: Counts,
) {
    assert_eq!(rt; worked, Some(slice));
    assert_eq!(rt; pass.held(), None);
    assert_eq!(rt; gate.counts(), counts, "slice {slice} is finished");
}

// Works a slice, and tells whether the call was refused: the pass then holds the slice, and the next call works it.
fn work_slice<'g, 'p, R: Abort>(
    rt: &R,
    alloc: Global,
    job: &Job<'g, 'p>,
    pass: &mut Pass<GraphSets<'g, 'p>>,
    gate: &Recorder,
    slice: (u32, Counts, Counts),
) -> Result<bool, OutOfMemory>
    requires { IsOf job.now pass.old }
    ensures { IfOk result (λ _. IsOf job.now pass.new) }
{
    let (number, held, finished) = slice;
    let (worked, refused) = match job.work(alloc, pass, 0, gate) {
        Ok(worked) => (worked, false),
        Err(_) => {
            check_held(rt, &*pass, gate, number, held);
            (job.work(alloc, pass, 0, gate)?, true)
        }
    };
    check_worked(rt, worked, &*pass, gate, number, finished);
    Ok(refused)
}

// Works all slices in order, of which there is no other, and tells whose call was refused.
fn work_all<'g, 'p, R: Abort>(
    rt: &R,
    alloc: Global,
    job: &Job<'g, 'p>,
    pass: &mut Pass<GraphSets<'g, 'p>>,
    gate: &Recorder,
) -> Result<Option<u32>, OutOfMemory>
    requires { IsOf job.now pass.old }
    ensures { IfOk result (λ _. IsOf job.now pass.new) }
{
    let mut refused = None;
    for slice in SLICES {
        if work_slice(rt, alloc, job, pass, gate, *slice)? {
            refused = Some(slice.0);
        }
    }
    assert_eq!(rt; job.work(alloc, pass, 0, gate)?, None);
    Ok(refused)
}

// The table of a job, and the slice whose call was refused.
fn table_of_job<'g, 'p, R: Abort>(
    rt: &R,
    alloc: Global,
    job: Job<'g, 'p>,
    pass: Pass<GraphSets<'g, 'p>>,
) -> Result<(Table, Option<u32>), Fail>
    requires { IsOf job pass }
    ensures { IfOk result (λ r. IsTableOf job.entry.wanted.program r.0) }
{
    let mut pass = pass;
    let refused = work_all(rt, alloc, &job, &mut pass, &Recorder::new())?;
    Ok((closed(job, pass)?, refused))
}

// The table of three slices, and the one whose call was refused.
fn table_after_refusals<R: Abort>(
    rt: &R,
    alloc: Global,
    graph: &Graph<'_>,
) -> Result<(Table, Option<u32>), Fail>
    ensures { IfOk result (λ r. IsTableOf graph.now r.0) }
{
    let (job, pass) = opened(alloc, graph, Analysis::Reach)?;
    table_of_job(rt, alloc, job, pass)
}

// With refused calls.
struct WithRefusals;

impl Question for WithRefusals {
    fn answer<R: Threads + Sync + Abort>(
        &self,
        rt: &R,
        alloc: Global,
        graph: &Graph<'_>,
    ) -> Result<String, Fail> {
        let (table, refused) = table_after_refusals(rt, alloc, graph)?;
        let lines = lines(alloc, graph, &table)?;
        match refused {
            Some(slice) => answered_again(Some(lines), RECURSIVE_REACH, name_of_work(slice)),
            None => Ok(lines),
        }
    }
}

fn name_of_work(slice: u32) -> &'static str {
    match slice {
        0 => "Job::work of slice 0",
        1 => "Job::work of slice 1",
        _ => "Job::work of slice 2",
    }
}

#[test]
fn a_refused_call_goes_on(rt: HostRuntime) -> Result<(), Fail> {
    check_counts(&rt, &WithRefusals)
}

// A call that takes memory, made once more where it is refused.
#[derive(Clone, Copy)]
enum Call {
    Analyse(u32),
    TableAt,
}

fn lines_of_opened<R: Abort>(
    rt: &R,
    alloc: Global,
    graph: &Graph<'_>,
) -> Result<Option<String>, Fail> {
    let cut = slices(alloc, graph, Analysis::Reach, 1)?;
    match Job::open(alloc, graph, Analysis::Reach, cut) {
        Ok((job, pass)) => {
            let (table, _) = table_of_job(rt, alloc, job, pass)?;
            Ok(Some(lines(alloc, graph, &table)?))
        }
        Err(_) => Ok(None),
    }
}

fn lines_of_table<R: Threads + Sync>(
    rt: &R,
    alloc: Global,
    graph: &Graph<'_>,
    workers: u32,
) -> Result<Option<String>, Fail> {
    let cut = slices(alloc, graph, Analysis::Reach, 1)?;
    match analyse(rt, alloc, graph, Analysis::Reach, cut, workers, &OpenGate) {
        Ok(table) => Ok(Some(lines(alloc, graph, &table)?)),
        Err(_) => Ok(None),
    }
}

// What a call gives, once what it takes is there; none where it was refused.
fn lines_of_call<R: Threads + Sync>(
    rt: &R,
    alloc: Global,
    graph: &Graph<'_>,
    call: Call,
) -> Result<Option<String>, Fail> {
    match call {
        Call::Analyse(workers) => lines_of_table(rt, alloc, graph, workers),
        Call::TableAt => Ok(lines_of_excerpt(rt, alloc, graph, BEHIND)?),
    }
}

fn name_of(call: Call) -> &'static str {
    match call {
        Call::Analyse(_) => "analyse",
        Call::TableAt => "table_at",
    }
}

// A call, and what it gives.
#[derive(Clone, Copy)]
struct Twice<'a> {
    call: Call,
    want: &'a str,
}

impl<'a> Question for Twice<'a> {
    fn answer<R: Threads + Sync + Abort>(
        &self,
        rt: &R,
        alloc: Global,
        graph: &Graph<'_>,
    ) -> Result<String, Fail> {
        match lines_of_call(rt, alloc, graph, self.call)? {
            Some(lines) => Ok(lines),
            None => answered_again(
                lines_of_call(rt, alloc, graph, self.call)?,
                self.want,
                name_of(self.call),
            ),
        }
    }
}

// A job that is opened and worked.
struct OpenedJob;

impl Question for OpenedJob {
    fn answer<R: Threads + Sync + Abort>(
        &self,
        rt: &R,
        alloc: Global,
        graph: &Graph<'_>,
    ) -> Result<String, Fail> {
        match lines_of_opened(rt, alloc, graph)? {
            Some(lines) => Ok(lines),
            None => answered_again(
                lines_of_opened(rt, alloc, graph)?,
                RECURSIVE_REACH,
                "Job::open",
            ),
        }
    }
}

// What is told of the recursive program.
fn check_counts<R: Threads + Sync + Abort + AllocGlobal, Q: Question>(
    rt: &R,
    question: &Q,
) -> Result<(), Fail> {
    check(rt, recursion::TEXT, question, RECURSIVE_REACH, (0, 0))
}

// The same of a call.
fn check_call<R: Threads + Sync + Abort + AllocGlobal>(rt: &R, call: Call) -> Result<(), Fail> {
    let want = RECURSIVE_REACH;
    check_counts(rt, &Twice { call, want })
}

#[test]
fn an_opened_job_is_refused(rt: HostRuntime) -> Result<(), Fail> {
    check_counts(&rt, &OpenedJob)
}

#[test]
fn a_team_of_one_is_refused(rt: HostRuntime) -> Result<(), Fail> {
    check_call(&rt, Call::Analyse(1))
}

#[test]
fn a_team_of_two_is_refused(rt: HostRuntime) -> Result<(), Fail> {
    check_call(&rt, Call::Analyse(2))
}

// The points of the second procedure of `recursion`.
const BEHIND: Excerpt = Excerpt {
    analysis: Analysis::Reach,
    from: 4,
    until: 8,
    workers: 1,
};

#[test]
fn tables_at_some_points_are_refused(rt: HostRuntime) -> Result<(), Fail> {
    let want = RECURSIVE_REACH_BEHIND;
    let twice = Twice {
        call: Call::TableAt,
        want,
    };
    check(&rt, recursion::TEXT, &twice, want, (0, 0))
}
