// Teams: how many workers there may be, and what their gate is told.

ghost use Rattle.std.specs.Prelude.{◌≡◌};

use crate::questions::{Question, answered, check, check_text};
use flow_graph::{Analysis, Graph};
use flow_queries::answer;
use flow_team::{OpenGate, OutOfMemory, TeamFault, analyse};
use std::alloc::Global;
use std::process::Abort;
use std::test::Fail;
use std::thread::Threads;
use team_probes::{
    Cutting, Ledger, RECURSIVE_REACH, Recorder, WORKERS, lines, printed, slices, table_by,
};
use test_support::worked_programs::recursion;
use test_support::worked_programs::series::prints;

// The lines of live variables by 64 workers, each slice of which was claimed once and finished once, by the same worker.
fn noted_lines<R: Threads + Sync>(
    rt: &R,
    alloc: Global,
    graph: &Graph<'_>,
    width: u32,
    slices: u32,
) -> Result<String, Fail> {
    let gate = Ledger::new(alloc, slices)?;
    let how = (Analysis::Live, Cutting::Even(width), 64);
    let table = table_by(rt, alloc, graph, how, &gate)?;
    if gate.faults() > 0 {
        return Err(Fail::new("a slice was not claimed and finished once"));
    }
    Ok(lines(alloc, graph, &table)?)
}

// The same 200 times over.
#[derive(Clone, Copy)]
struct AgainAndAgain<'a> {
    width: u32,
    slices: u32,
    want: &'a str,
}

impl<'a> Question for AgainAndAgain<'a> {
    fn answer<R: Threads + Sync + Abort>(
        &self,
        rt: &R,
        alloc: Global,
        graph: &Graph<'_>,
    ) -> Result<String, Fail> {
        for turn in 0..200 {
            let counts = noted_lines(rt, alloc, graph, self.width, self.slices)?;
            check_text(rt, counts.as_str(), self.want, (turn, 64));
        }
        Ok(String::new(alloc))
    }
}

// The same of the text that prints 70 variables, in so many slices.
fn check_prints<R: Threads + Sync + Abort>(
    rt: &R,
    alloc: Global,
    width: u32,
    slices: u32,
) -> Result<(), Fail> {
    let text = prints(alloc, 70)?;
    let want = printed(alloc, 70)?;
    let again = AgainAndAgain {
        width,
        slices,
        want: want.as_str(),
    };
    answered(rt, alloc, text.as_str(), &again)?;
    Ok(())
}

#[test]
fn many_workers_on_one_slice(rt: HostRuntime) -> Result<(), Fail> {
    check_prints(&rt, rt.alloc(), 70, 1)
}

#[test]
fn many_workers_on_many_slices(rt: HostRuntime) -> Result<(), Fail> {
    check_prints(&rt, rt.alloc(), 1, 70)
}

// The fault that tells that so many workers are refused.
#[derive(Clone, Copy)]
enum Refused {
    Table(u32),
    Answers(u32),
}

fn fault_of_table<R: Threads + Sync>(
    rt: &R,
    alloc: Global,
    graph: &Graph<'_>,
    workers: u32,
) -> Result<TeamFault, Fail> {
    let cut = slices(alloc, graph, Analysis::Reach, 1)?;
    match analyse(rt, alloc, graph, Analysis::Reach, cut, workers, &OpenGate) {
        Ok(_) => Err(Fail::new("taken")),
        Err(fault) => Ok(fault),
    }
}

// Where nothing is asked.
fn fault_of_answers<R: Threads + Sync>(
    rt: &R,
    alloc: Global,
    graph: &Graph<'_>,
    workers: u32,
) -> Result<TeamFault, Fail> {
    match answer(rt, alloc, graph, Vec::new(alloc), 64, workers, &OpenGate) {
        Ok(_) => Err(Fail::new("taken")),
        Err(fault) => Ok(fault),
    }
}

impl Question for Refused {
    fn answer<R: Threads + Sync + Abort>(
        &self,
        rt: &R,
        alloc: Global,
        graph: &Graph<'_>,
    ) -> Result<String, Fail> {
        let fault = match self {
            Refused::Table(workers) => fault_of_table(rt, alloc, graph, *workers)?,
            Refused::Answers(workers) => fault_of_answers(rt, alloc, graph, *workers)?,
        };
        Ok(fault.to_string(alloc)?)
    }
}

const REFUSED_WORKERS: &[u32] = &[0, 65, u32::MAX];

const BAD_WORKERS: &str = "33: the number of workers is not one of 1 to 64";

#[test]
fn numbers_of_workers(rt: HostRuntime) -> Result<(), Fail> {
    for workers in REFUSED_WORKERS {
        let (table, answers) = (Refused::Table(*workers), Refused::Answers(*workers));
        check(&rt, recursion::TEXT, &table, BAD_WORKERS, (1, *workers))?;
        check(&rt, recursion::TEXT, &answers, BAD_WORKERS, (2, *workers))?;
    }
    let shown = format!(in rt.alloc(); "{}; {}", TeamFault::BadWorkers, TeamFault::OutOfMemory)?;
    check_text(
        &rt,
        shown.as_str(),
        "33: the number of workers is not one of 1 to 64; out of memory",
        (3, 0),
    );
    Ok(())
}

// The lines of reaching definitions, in slices of one bit.
#[derive(Clone, Copy)]
struct Counts<'a> {
    workers: u32,
    gate: &'a Recorder,
}

impl<'a> Question for Counts<'a> {
    fn answer<R: Threads + Sync + Abort>(
        &self,
        rt: &R,
        alloc: Global,
        graph: &Graph<'_>,
    ) -> Result<String, Fail> {
        let how = (Analysis::Reach, Cutting::Even(1), self.workers);
        let table = table_by(rt, alloc, graph, how, self.gate)?;
        Ok(lines(alloc, graph, &table)?)
    }
}

#[test]
fn each_slice_is_told_once(rt: HostRuntime) -> Result<(), Fail> {
    for workers in WORKERS {
        let gate = Recorder::new();
        let how = Counts {
            workers: *workers,
            gate: &gate,
        };
        check(&rt, recursion::TEXT, &how, RECURSIVE_REACH, (1, *workers))?;
        assert_eq!(rt; gate.counts(), (7, 7, 3, 3), "{workers} workers");
        assert_eq!(rt; gate.around(), (3, 3), "{workers} workers");
    }
    Ok(())
}
