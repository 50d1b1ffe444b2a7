// Jobs, step by step.

ghost use Rattle.std.specs.Prelude.{◌≡◌, IfOk};
ghost use Rattle.flow_graph.specs.Points.{point_count};
ghost use Rattle.flow_graph.specs.Universes.{bits as bits_of};
ghost use Rattle.flow_team.specs.Tables.{IsTableOf};
ghost use Rattle.slice_board.specs.Boards.{IsOf, board_points};

use crate::questions::{Question, check};
use flow_graph::{Analysis, Graph};
use flow_team::{GraphSets, Job, OpenGate, OutOfMemory, Table};
use slice_board::Pass;
use std::alloc::Global;
use std::process::Abort;
use std::test::Fail;
use std::thread::{Threads, join};
use team_probes::{RECURSIVE_REACH, Recorder, lines, printed, slices};
use test_support::worked_programs::recursion;
use test_support::worked_programs::series::prints;

// Two slices of the recursive program's reaching definitions are worked, a slice for each, with what is seen on the way: the definitions
// at the beginning and at line 2, which are in the first two slices.
fn check_two_slices<'g, 'p, R: Abort>(
    rt: &R,
    alloc: Global,
    job: &Job<'g, 'p>,
    pass: &mut Pass<GraphSets<'g, 'p>>,
    gate: &Recorder,
) -> Result<(), Fail>
    requires of { IsOf job.now pass.old }
    requires points { board_points job.now ≡ 8 }
    requires bits { job.now.cut.bits ≡ 3 }
    ensures { IfOk result (λ _. IsOf job.now pass.new) }
{
    assert_eq!(rt; job.work(alloc, pass, 0, gate)?, Some(0));
    assert_eq!(rt; gate.counts(), (1, 1, 1, 1));
    assert_eq!(rt; (job.look(pass, 0, 0), job.look(pass, 1, 0)), (1, 0));
    assert_eq!(rt; job.work(alloc, pass, 0, gate)?, Some(1));
    assert_eq!(rt; job.look(pass, 1, 0), 2);
    Ok(())
}

// The third slice is worked, and there is no fourth.
fn check_last_slice<'g, 'p, R: Abort>(
    rt: &R,
    alloc: Global,
    job: &Job<'g, 'p>,
    pass: &mut Pass<GraphSets<'g, 'p>>,
    gate: &Recorder,
) -> Result<(), Fail>
    requires { IsOf job.now pass.old }
    ensures { IfOk result (λ _. IsOf job.now pass.new) }
{
    assert_eq!(rt; job.work(alloc, pass, 0, gate)?, Some(2));
    assert_eq!(rt; job.work(alloc, pass, 0, gate)?, None);
    assert_eq!(rt; gate.counts(), (7, 7, 3, 3));
    Ok(())
}

// The job does not close yet: so many of its slices are finished.
fn still_open<'g, 'p, R: Abort>(
    rt: &R,
    job: Job<'g, 'p>,
    pass: Pass<GraphSets<'g, 'p>>,
    finished: (u32, u32),
) -> Result<(Job<'g, 'p>, Pass<GraphSets<'g, 'p>>), Fail>
    requires { IsOf job pass }
    ensures { IfOk result (λ again. (again.0 ≡ job.entry) × IsOf again.0 again.1) }
{
    match job.close(pass) {
        Ok(_) => Err(Fail::new("closed too soon")),
        Err((unfinished, job, pass)) => {
            assert_eq!(rt; (unfinished.done, unfinished.of), finished);
            Ok((job, pass))
        }
    }
}

/// The table of a job whose slices are all finished.
pub fn closed<'g, 'p>(job: Job<'g, 'p>, pass: Pass<GraphSets<'g, 'p>>) -> Result<Table, Fail>
    requires { IsOf job pass }
    ensures { IfOk result (IsTableOf job.entry.wanted.program) }
{
    match job.close(pass) {
        Ok(table) => Ok(table),
        Err(_) => Err(Fail::new("unfinished")),
    }
}

// The job closes only once the third slice is finished.
fn closed_in_the_end<'g, 'p, R: Abort>(
    rt: &R,
    alloc: Global,
    job: Job<'g, 'p>,
    pass: Pass<GraphSets<'g, 'p>>,
    gate: &Recorder,
) -> Result<Table, Fail>
    requires { IsOf job pass }
    ensures { IfOk result (IsTableOf job.entry.wanted.program) }
{
    let (job, mut pass) = still_open(rt, job, pass, (2, 3))?;
    check_last_slice(rt, alloc, &job, &mut pass, gate)?;
    closed(job, pass)
}

// The recursive program's graph has 8 points, and 3 definitions.
fn check_sizes<R: Abort>(rt: &R, graph: &Graph<'_>)
    ensures points { point_count graph.now ≡ 8 }
    ensures bits { bits_of graph.now Analysis.Reach ≡ 3 }
{
    assert_eq!(rt; graph.points(), 8);
    assert_eq!(rt; graph.bits(Analysis::Reach), 3);
}

/// A job of an analysis of a graph, a slice for each bit.
pub fn opened<'g, 'p>(
    alloc: Global,
    graph: &'g Graph<'p>,
    analysis: Analysis,
) -> Result<(Job<'g, 'p>, Pass<GraphSets<'g, 'p>>), Fail>
    ensures wanted { IfOk result (λ r. r.0.wanted ≡ record { program = graph.now; analysis = analysis }) }
    ensures bits { IfOk result (λ r. r.0.cut.bits ≡ bits_of graph.now analysis) }
    ensures pass { IfOk result (λ r. IsOf r.0 r.1) }
{
    let cut = slices(alloc, graph, analysis, 1)?;
    Ok(Job::open(alloc, graph, analysis, cut)?)
}

// The table of the recursive program's reaching definitions, slice by slice.
fn table_by_slices<R: Abort>(
    rt: &R,
    alloc: Global,
    graph: &Graph<'_>,
    gate: &Recorder,
) -> Result<Table, Fail>
    ensures { IfOk result (IsTableOf graph.now) }
{
    check_sizes(rt, graph);
    let (job, mut pass) = opened(alloc, graph, Analysis::Reach)?;
    check_two_slices(rt, alloc, &job, &mut pass, gate)?;
    closed_in_the_end(rt, alloc, job, pass, gate)
}

// Slice by slice.
struct BySlices;

impl Question for BySlices {
    fn answer<R: Threads + Sync + Abort>(
        &self,
        rt: &R,
        alloc: Global,
        graph: &Graph<'_>,
    ) -> Result<String, Fail> {
        let table = table_by_slices(rt, alloc, graph, &Recorder::new())?;
        Ok(lines(alloc, graph, &table)?)
    }
}

#[test]
fn slices_one_after_the_other(rt: HostRuntime) -> Result<(), Fail> {
    check(&rt, recursion::TEXT, &BySlices, RECURSIVE_REACH, (0, 0))
}

// Works 70 slices by two passes in turn.
fn work_in_turns<'g, 'p, R: Abort>(
    rt: &R,
    alloc: Global,
    job: &Job<'g, 'p>,
    first: &mut Pass<GraphSets<'g, 'p>>,
    second: &mut Pass<GraphSets<'g, 'p>>,
) -> Result<(), OutOfMemory>
    requires first { IsOf job.now first.old }
    requires second { IsOf job.now second.old }
    ensures first { IfOk result (λ _. IsOf job.now first.new) }
    ensures second { IfOk result (λ _. IsOf job.now second.new) }
{
    for turn in 0..35 {
        assert_eq!(rt; job.work(alloc, first, 0, &OpenGate)?, Some(2 * turn));
        assert_eq!(rt; job.work(alloc, second, 1, &OpenGate)?, Some(2 * turn + 1));
    }
    assert_eq!(rt; job.work(alloc, first, 0, &OpenGate)?, None);
    assert_eq!(rt; job.work(alloc, second, 1, &OpenGate)?, None);
    Ok(())
}

// Both passes as one.
fn worked_in_turns<'g, 'p, R: Abort>(
    rt: &R,
    alloc: Global,
    job: &Job<'g, 'p>,
    pass: Pass<GraphSets<'g, 'p>>,
) -> Result<Pass<GraphSets<'g, 'p>>, Fail>
    requires { IsOf job.now pass }
    ensures { IfOk result (IsOf job.now) }
{
    let mut first = pass;
    let mut second = job.split(&mut first);
    work_in_turns(rt, alloc, job, &mut first, &mut second)?;
    match job.join(first, second) {
        Ok(pass) => Ok(pass),
        Err(_) => Err(Fail::new("both hold a slice")),
    }
}

// The table of the variables that are live, by two passes.
fn table_in_turns<R: Abort>(rt: &R, alloc: Global, graph: &Graph<'_>) -> Result<Table, Fail>
    ensures { IfOk result (IsTableOf graph.now) }
{
    let (job, pass) = opened(alloc, graph, Analysis::Live)?;
    let pass = worked_in_turns(rt, alloc, &job, pass)?;
    closed(job, pass)
}

// In turns.
struct InTurns;

impl Question for InTurns {
    fn answer<R: Threads + Sync + Abort>(
        &self,
        rt: &R,
        alloc: Global,
        graph: &Graph<'_>,
    ) -> Result<String, Fail> {
        let table = table_in_turns(rt, alloc, graph)?;
        Ok(lines(alloc, graph, &table)?)
    }
}

#[test]
fn two_passes_over_one_job(rt: HostRuntime) -> Result<(), Fail> {
    let alloc = rt.alloc();
    let text = prints(alloc, 70)?;
    let want = printed(alloc, 70)?;
    check(&rt, text.as_str(), &InTurns, want.as_str(), (0, 2))
}

// What a thread does over a job that it shares, with a pass of its own: a closure that goes to a thread cannot name the two
// lifetimes of a job.
trait Activity<P>: Sync {
    // the pass is of the job
    ghost is_of: { Self → P → Type 0 };

    /// Works until no slice is left.
    fn work_all(&self, alloc: Global, worker: u32, pass: P) -> Result<P, OutOfMemory>
        requires { is_of self.now pass }
        ensures { IfOk result (is_of self.now) };
}

impl<'g, 'p> Activity<Pass<GraphSets<'g, 'p>>> for Job<'g, 'p> {
    ghost is_of = { IsOf };

    fn work_all(
        &self,
        alloc: Global,
        worker: u32,
        pass: Pass<GraphSets<'g, 'p>>,
    ) -> Result<Pass<GraphSets<'g, 'p>>, OutOfMemory> {
        let mut pass = pass;
        for _ in 0..=self.slices() {
            if self.work(alloc, &mut pass, worker, &OpenGate)?.is_none() {
                return Ok(pass);
            }
        }
        Ok(pass)
    }
}

// Two threads work over one job until no slice is left.
fn worked_by_two<P: Send + Drop, J: Activity<P>, R: Threads + Sync>(
    rt: &R,
    alloc: Global,
    job: &J,
    first: P,
    second: P,
) -> (Result<P, OutOfMemory>, Result<P, OutOfMemory>)
    requires first { J.is_of job.now first }
    requires second { J.is_of job.now second }
    ensures first { IfOk result.0 (J.is_of job.now) }
    ensures second { IfOk result.1 (J.is_of job.now) }
{
    join(
        rt,
        move || -> Result<P, OutOfMemory>
            requires { J.is_of job.now first }
            ensures { IfOk result (J.is_of job.entry.now) }
        { job.work_all(alloc, 0, first) },
        move || -> Result<P, OutOfMemory>
            requires { J.is_of job.now second }
            ensures { IfOk result (J.is_of job.entry.now) }
        { job.work_all(alloc, 1, second) },
    )
}

// Both passes as one.
fn worked_side_by_side<'g, 'p, R: Threads + Sync>(
    rt: &R,
    alloc: Global,
    job: &Job<'g, 'p>,
    pass: Pass<GraphSets<'g, 'p>>,
) -> Result<Pass<GraphSets<'g, 'p>>, Fail>
    requires { IsOf job.now pass }
    ensures { IfOk result (IsOf job.now) }
{
    let mut first = pass;
    let second = job.split(&mut first);
    let (first, second) = worked_by_two(rt, alloc, job, first, second);
    match job.join(first?, second?) {
        Ok(pass) => Ok(pass),
        Err(_) => Err(Fail::new("both hold a slice")),
    }
}

// The table of the variables that are live, by two threads over one job.
fn table_side_by_side<R: Threads + Sync>(
    rt: &R,
    alloc: Global,
    graph: &Graph<'_>,
) -> Result<Table, Fail>
    ensures { IfOk result (IsTableOf graph.now) }
{
    let (job, pass) = opened(alloc, graph, Analysis::Live)?;
    let pass = worked_side_by_side(rt, alloc, &job, pass)?;
    closed(job, pass)
}

// Side by side.
struct SideBySide;

impl Question for SideBySide {
    fn answer<R: Threads + Sync + Abort>(
        &self,
        rt: &R,
        alloc: Global,
        graph: &Graph<'_>,
    ) -> Result<String, Fail> {
        let table = table_side_by_side(rt, alloc, graph)?;
        Ok(lines(alloc, graph, &table)?)
    }
}

#[test]
fn two_activities_over_one_job(rt: HostRuntime) -> Result<(), Fail> {
    let alloc = rt.alloc();
    let text = prints(alloc, 70)?;
    let want = printed(alloc, 70)?;
    check(&rt, text.as_str(), &SideBySide, want.as_str(), (0, 2))
}
